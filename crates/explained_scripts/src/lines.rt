// The lines of an explanation.
ghost use Rattle.std.specs.Prelude.{◌≡◌, ◌<◌, ◌++◌, ◌∷◌, [], ℕ, List, codes, length, slice_get, if◌then◌else◌, IfOk, OnOk};
ghost use Rattle.std.specs.List.{flat_map};
ghost use Rattle.std.specs.Option.{option_map};
ghost use Rattle.std.specs.Fmt.{decimal};
ghost use Rattle.rb_base.specs.Names.{name_at, text_eq};
ghost use Rattle.scope_model.specs.FreeNames.{each_once};
ghost use Rattle.image_model.specs.Image.{EntryOf, ImageOf};
ghost use Rattle.query_model.specs.Lines.{node_line};
ghost use Rattle.class_table.specs.Valid.{IsOrderly};
ghost use Rattle.class_table.specs.View.{image_of};
ghost use Rattle.command_model.specs.Asked.{text_asked};
ghost use Rattle.command_model.specs.CodeEffects.{method_at};
ghost use Rattle.commands.specs.Views.{HasSelf};
ghost use Rattle.event_spans.specs.Answers.{of_span};
ghost use Rattle.script_lang.specs.Shown.{texts};
ghost use Rattle.refusal_witnesses.specs.Lines.{line_of};
ghost use Rattle.why_model.specs.Explained.{numbered_lines, reaches_round, step_text, AreRound, AreRoundIn};
ghost use Rattle.explained_scripts.specs.Lines.{line_shown, round_texts, said_from, title_named, IsTitled};

use class_table::Image;
use commands::{MethodName, MethodPart};
use image_queries::{text_of, write_line};
use rb_base::{Memory, Names, Span, Steps, Text};
use script_lang::{is_skipped, lines_of};
use st_spans::{NodeSpan, spans};
use std::alloc::Global;
use std::sync::ledger::Ledger;
use users_methods::users_method;
use witness_numbers::witnesses_by_numbers;

/// A line of a script that says something.
#[derive(Clone, Copy, Debug)]
pub(crate) struct NumberedLine<'a> {
    /// Its number among all lines, from 1.
    pub(crate) number: usize,
    pub(crate) text: &'a [u8],
}

/// The line at a place, from 0, among those of these lines that say something.
fn line_among<'a>(lines: &[&'a [u8]], place: usize) -> Option<NumberedLine<'a>>
    ensures { option_map line_shown result ≡ slice_get (said_from 1 (texts lines.now)) place }
{
    let mut left = place;
    let mut number = 0;
    for text in lines {
        number += 1;
        if !is_skipped(text) {
            if left == 0 {
                return Some(NumberedLine { number, text });
            }
            left -= 1;
        }
    }
    None
}

/// The line at a place, from 0, among those of a script that say something.
pub(crate) fn line_at(
    alloc: Global,
    script: &[u8],
    place: usize,
) -> Result<Option<NumberedLine<'_>>, Memory>
    ensures { IfOk result (λ found. option_map line_shown found ≡ slice_get (numbered_lines script.now) place) }
{
    let lines = lines_of(alloc, script)?;
    Ok(line_among(lines.as_slice(), place))
}

/// Appends the line of a script with its number, and the step that is refused, if there is one.
pub(crate) fn push_script_line(
    alloc: Global,
    line: NumberedLine<'_>,
    step: Option<usize>,
    out: &mut Text,
) -> Result<(), Memory>
    ensures { OnOk result (out.new ≡ out.old ++ line_of (codes "line " ++ decimal line.entry.number ++ codes " " ++ line.entry.text.now ++ step_text step)) }
{
    let start = format!(in alloc; "line {} ", line.number)?;
    out.push_slice(start.as_bytes())?;
    out.push_slice(line.text)?;
    if let Some(step) = step {
        let end = format!(in alloc; " step {step}")?;
        out.push_slice(end.as_bytes())?;
    }
    out.push_slice(b"\n")
}

/// Appends the lines, each once, at its first place.
pub(crate) fn push_each_once(alloc: Global, lines: &[Text], out: &mut Text) -> Result<(), Memory>
    ensures { OnOk result (out.new ≡ out.old ++ flat_map (λ (text : List ℕ). text) (each_once text_eq lines.now)) }
{
    let mut seen = Names::new(alloc);
    for line in lines {
        let count = seen.len();
        let number = seen.intern(line.as_slice())?;
        if number.0 == count {
            out.push_slice(line.as_slice())?;
        }
    }
    Ok(())
}

/// Whether a span reaches round two offsets.
fn is_round(span: Span, from: usize, to: usize) -> bool
    ensures { result ≡ reaches_round from to (of_span span) }
{
    span.from <= from && to <= span.to
}

/// Appends the line of a node, if it is to be told.
fn push_line_if(
    alloc: Global,
    is_told: bool,
    title: &[u8],
    span: Span,
    lines: &mut Vec<Text>,
) -> Result<(), Memory>
    ensures { OnOk result (lines.new.items ≡ lines.old.items ++ (if is_told then node_line title.now (of_span span) ∷ [] else [])) }
{
    if is_told {
        let mut line = Text::new(alloc);
        write_line(alloc, title, span, &mut line)?;
        lines.push(line)?;
    }
    Ok(())
}

/// The lines of those nodes that stand round two offsets, in their order.
fn told_round(
    alloc: Global,
    title: &[u8],
    nodes: &[NodeSpan],
    from: usize,
    to: usize,
) -> Result<Vec<Text>, Memory>
    ensures { IfOk result (λ lines. lines.items ≡ round_texts title.now from to nodes.now) }
{
    let mut lines = Vec::new(alloc);
    for node in nodes {
        let is_told = is_round(node.span, from, to);
        push_line_if(alloc, is_told, title, node.span, &mut lines)?;
    }
    Ok(lines)
}

/// The lines of the nodes of a method of the user, with this title and this source, that stand round two offsets, each before
/// those below it. Want of memory also if the source spells no method.
fn round_nodes(
    alloc: Global,
    title: &[u8],
    source: &[u8],
    from: usize,
    to: usize,
) -> Result<Vec<Text>, Memory>
    ensures { IfOk result (λ lines. (i : ImageOf (List ℕ)) (m : EntryOf (List ℕ)) → IsTitled m title.now source.now → AreRound i m from to lines.items) }
{
    match spans(alloc, source) {
        Ok(found) => told_round(alloc, title, found.as_slice(), from, to),
        Err(_) => Err(Memory),
    }
}

/// The same of the method in which a part is sought; no lines, if there is no such method of the user.
pub(crate) fn round_lines<L: Ledger>(
    alloc: Global,
    image: &Image,
    part: &MethodPart,
    steps: &mut Steps<L>,
) -> Result<Vec<Text>, Memory>
    requires orderly { IsOrderly image.now }
    requires self_known { HasSelf image.now.names }
    requires class { part.now.method.class < length image.now.names }
    requires selector { part.now.method.selector < length image.now.names }
    ensures { IfOk result (λ lines. AreRoundIn (image_of image.now) (method_at text_asked (image_of image.now) (name_at image.now.names part.now.method.class) part.now.method.meta (name_at image.now.names part.now.method.selector)) part.now.from part.now.to lines.items) }
{
    witnesses_by_numbers();
    let Some(method) = users_method(image, part.method, steps) else {
        return Ok(Vec::new(alloc));
    };
    let name = MethodName {
        class: part.method.class,
        meta: method.meta,
        selector: method.tree.selector,
    };
    let title = title_of(alloc, image, name)?;
    round_nodes(alloc, title.as_slice(), method.source, part.from, part.to)
}

/// The title of a method by its names, as it stands in a line: `Account>>balance`, or `Account class>>new`.
pub(crate) fn title_of(alloc: Global, image: &Image, method: MethodName) -> Result<Text, Memory>
    ensures { IfOk result (λ title. title ≡ title_named image.now.names method) }
{
    let mut title = Text::from_slice(alloc, text_of(image, method.class))?;
    if method.meta {
        title.push_slice(b" class>>")?;
    } else {
        title.push_slice(b">>")?;
    }
    title.push_slice(text_of(image, method.selector))?;
    Ok(title)
}
