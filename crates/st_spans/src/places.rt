// Where nodes stand.
ghost use Rattle.std.specs.Prelude.{◌≡◌, IfOk, IfErr, false, Option, option_map};
ghost use Rattle.std.specs.Option.{option_copied};
ghost use Rattle.grammar_model.specs.Whole.{DoIt, Method};
ghost use Rattle.grammar_model.specs.Spans.{span_at};
ghost use Rattle.st_faults.specs.Faults.{IsRefused};
ghost use Rattle.event_spans.specs.Preorder.{sequence_places};
ghost use Rattle.event_spans.specs.Answers.{to_span, of_span, sequence_spans, HasPart};
ghost use Rattle.st_spans.specs.Trees.{OfMethod, OfDoIt, piece};

use event_spans::{Places, Spans};
use rb_base::Span;
use st_faults::ParseFault;
use st_reading::{read_doit, read_method};
use st_tree::{Part, Path};
use std::alloc::Global;

/// The nodes of a method of a user.
fn method_places(alloc: Global, text: &[u8]) -> Result<Places, ParseFault>
    ensures places { IfOk result (λ places. OfMethod text.now (λ s. places ≡ sequence_places s)) }
    ensures fault { IfErr result (IsRefused (Method false) text.now) }
{
    let found = read_method(alloc, text, false)?;
    Ok(Places::of(alloc, &found.body)?)
}

/// The nodes of a do-it.
fn doit_places(alloc: Global, text: &[u8]) -> Result<Places, ParseFault>
    ensures places { IfOk result (λ places. OfDoIt text.now (λ s. places ≡ sequence_places s)) }
    ensures fault { IfErr result (IsRefused DoIt text.now) }
{
    let found = read_doit(alloc, text)?;
    Ok(Places::of(alloc, &found)?)
}

/// Where the node of a user's method stands to which a path leads, in bytes from the text's start: from its first byte
/// up to the place behind its last one. Parentheses round a node are no part of it. None exactly where the path leads to
/// no node. The text is refused with its first fault, as `ParseFault` tells. A text of 4 GiB or more that has no
/// fault is answered with `Memory`, since places take four bytes. The time is linear in the text.
pub fn span_of(alloc: Global, text: &[u8], path: &Path) -> Result<Option<Span>, ParseFault>
    ensures span { IfOk result (λ span. OfMethod text.now (λ s. span ≡ option_map to_span (span_at s path.now))) }
    ensures fault { IfErr result (IsRefused (Method false) text.now) }
{
    Ok(method_places(alloc, text)?.span_at(path))
}

/// Where the node of a do-it stands to which a path leads, as `span_of` tells of a method, texts of 4 GiB or more too.
pub fn span_of_doit(alloc: Global, text: &[u8], path: &Path) -> Result<Option<Span>, ParseFault>
    ensures span { IfOk result (λ span. OfDoIt text.now (λ s. span ≡ option_map to_span (span_at s path.now))) }
    ensures fault { IfErr result (IsRefused DoIt text.now) }
{
    Ok(doit_places(alloc, text)?.span_at(path))
}

/// All nodes of a user's method in preorder, each with the path that leads to it and where it stands, as `span_of` tells.
/// The text is refused with its first fault, and one of 4 GiB or more is answered as by `span_of`. The time is linear in
/// the text and in the length of all paths.
pub fn spans(alloc: Global, text: &[u8]) -> Result<Spans, ParseFault>
    ensures spans { IfOk result (λ spans. OfMethod text.now (λ s. spans ≡ sequence_spans s)) }
    ensures fault { IfErr result (IsRefused (Method false) text.now) }
{
    Ok(method_places(alloc, text)?.spans(alloc)?)
}

/// All nodes of a do-it in preorder, as `spans` tells of a method, texts of 4 GiB or more too.
pub fn doit_spans(alloc: Global, text: &[u8]) -> Result<Spans, ParseFault>
    ensures spans { IfOk result (λ spans. OfDoIt text.now (λ s. spans ≡ sequence_spans s)) }
    ensures fault { IfErr result (IsRefused DoIt text.now) }
{
    Ok(doit_places(alloc, text)?.spans(alloc)?)
}

/// The part of a user's method that stands from one place up to another, in bytes from the text's start: a node, or,
/// where no node stands there, two or more neighbouring statements from the first byte of the first node to the last
/// byte of the last one. One whole statement is an expression. None exactly where neither stands there. The text is
/// refused with its first fault, and one of 4 GiB or more is answered as by `span_of`. The time is linear in the text.
pub fn part_of_span(
    alloc: Global,
    text: &[u8],
    from: usize,
    to: usize,
) -> Result<Option<Part>, ParseFault>
    ensures part { IfOk result (λ part. OfMethod text.now (λ s. HasPart s (record { from = from; to = to }) part)) }
    ensures fault { IfErr result (IsRefused (Method false) text.now) }
{
    Ok(method_places(alloc, text)?.part_at(alloc, Span { from, to })?)
}

/// The text of the node of a user's method to which a path leads, which is not copied. None exactly where the path leads
/// to no node. The text is refused with its first fault, and one of 4 GiB or more is answered as by `span_of`. The time
/// is linear in the text.
pub fn lend_part<'t>(
    alloc: Global,
    text: &'t [u8],
    path: &Path,
) -> Result<Option<&'t [u8]>, ParseFault>
    ensures part { IfOk result (λ part. OfMethod text.now (λ s. option_copied part ≡ option_map (piece text.now) (span_at s path.now))) }
    ensures fault { IfErr result (IsRefused (Method false) text.now) }
{
    match span_of(alloc, text, path)? {
        Some(span) => Ok(Some(piece(text, span))),
        None => Ok(None),
    }
}

/// The bytes of a span.
fn piece(text: &[u8], span: Span) -> &[u8]
    ensures { result.now ≡ piece text.now (of_span span) }
{
    let rest = text.get(span.from..).unwrap_or(&[]);
    rest.get(..span.to.saturating_sub(span.from))
        .unwrap_or(rest)
}
