// The lines of the nodes that a pattern matches in one method and in one do-it.
ghost use Rattle.std.specs.Prelude.{◌≡◌, ◌<◌, ◌+◌, ◌++◌, codes, length, slice_get, IfOk};
ghost use Rattle.std.specs.Option.{ForSome};
ghost use Rattle.std.specs.Fmt.{decimal};
ghost use Rattle.event_spans.specs.Answers.{sequence_spans};
ghost use Rattle.st_spans.specs.Trees.{OfMethod, OfDoIt};
ghost use Rattle.st_tree.specs.View.{sequence_of};
ghost use Rattle.class_table.specs.Valid.{IsLive, IsOrderly};
ghost use Rattle.pattern_model.specs.Search.{all_matches};
ghost use Rattle.pattern_match.specs.Words.{number_words};
ghost use Rattle.image_queries.specs.Parts.{title_of};
ghost use Rattle.image_search.specs.Parts.{StandsInMethodText, StandsInDoItText, AreNodeLines, IsSlotText, IsDoItText};

use crate::lookup::path_lines;
use class_table::{Image, MethodInfo, MethodSlot};
use image_queries::{doit_title, method_title};
use pattern_match::all_matches;
use patterns::Pattern;
use rb_base::{Memory, Steps, Text};
use st_spans::{Spans, doit_spans, spans};
use st_tree::{Method, Sequence};
use std::alloc::Global;
use std::sync::ledger::Ledger;

/// The nodes of a method of a user, in their order. Want of memory also where the source spells no method.
fn method_nodes(alloc: Global, source: &[u8]) -> Result<Spans, Memory>
    ensures { IfOk result (λ nodes. OfMethod source.now (λ s. nodes ≡ sequence_spans s)) }
{
    match spans(alloc, source) {
        Ok(nodes) => Ok(nodes),
        Err(_) => Err(Memory),
    }
}

/// The nodes of a do-it, in their order. Want of memory also where the source spells no do-it.
fn doit_nodes(alloc: Global, source: &[u8]) -> Result<Spans, Memory>
    ensures { IfOk result (λ nodes. OfDoIt source.now (λ s. nodes ≡ sequence_spans s)) }
{
    match doit_spans(alloc, source) {
        Ok(nodes) => Ok(nodes),
        Err(_) => Err(Memory),
    }
}

/// The lines of a method of a user. Its source is read only where the pattern matches in its tree.
fn tree_lines(
    alloc: Global,
    image: &Image,
    pattern: &Pattern,
    info: &MethodInfo<'_>,
    tree: &Method,
) -> Result<Text, Memory>
    requires { IsLive image.now.class_order info.now.class }
    ensures { IfOk result (λ text. AreNodeLines (title_of image.now.names image.now.classes info.now.class info.now.meta info.now.selector)
        (StandsInMethodText info.now.source.now) (all_matches (number_words image.now.names) pattern.now (sequence_of tree.now.body)) text) }
{
    let mut paths = Vec::new(alloc);
    all_matches(alloc, image.names(), pattern, &tree.body, &mut paths)?;
    let found = paths.as_slice();
    if found.is_empty() {
        return Ok(Text::new(alloc));
    }
    let title = method_title(alloc, image, info)?;
    let nodes = method_nodes(alloc, info.source)?;
    path_lines(alloc, title.as_slice(), nodes.as_slice(), found)
}

/// The lines of the method in a live slot.
pub(crate) fn slot_lines<L: Ledger>(
    alloc: Global,
    image: &Image,
    pattern: &Pattern,
    slot: MethodSlot,
    steps: &mut Steps<L>,
) -> Result<Text, Memory>
    requires orderly { IsOrderly image.now }
    requires live { IsLive image.now.method_order slot }
    ensures { IfOk result (λ text. IsSlotText image.now pattern.now slot text) }
{
    let Some(info) = image.method_info(slot) else {
        return Ok(Text::new(alloc));
    };
    if info.kernel {
        return Ok(Text::new(alloc));
    }
    match image.open_body(slot, steps) {
        None => Ok(Text::new(alloc)),
        Some(tree) => tree_lines(alloc, image, pattern, &info, tree),
    }
}

/// The lines of a do-it with the number. Its source is read only where the pattern matches in its body.
fn body_lines(
    alloc: Global,
    image: &Image,
    pattern: &Pattern,
    number: usize,
    source: &[u8],
    body: &Sequence,
) -> Result<Text, Memory>
    requires { number < usize.MAX }
    ensures { IfOk result (λ text. AreNodeLines (codes "doit " ++ decimal (number + 1))
        (StandsInDoItText source.now) (all_matches (number_words image.now.names) pattern.now (sequence_of body.now)) text) }
{
    let mut paths = Vec::new(alloc);
    all_matches(alloc, image.names(), pattern, body, &mut paths)?;
    let found = paths.as_slice();
    if found.is_empty() {
        return Ok(Text::new(alloc));
    }
    let title = doit_title(alloc, number)?;
    let nodes = doit_nodes(alloc, source)?;
    path_lines(alloc, title.as_slice(), nodes.as_slice(), found)
}

/// The lines of the do-it of a number.
pub(crate) fn number_lines<L: Ledger>(
    alloc: Global,
    image: &Image,
    pattern: &Pattern,
    number: usize,
    steps: &mut Steps<L>,
) -> Result<Text, Memory>
    requires there { number < length image.now.doits }
    requires number { number < usize.MAX }
    ensures { IfOk result (λ text. ForSome (slice_get image.now.doits number) (λ d. IsDoItText image.now pattern.now number d text)) }
{
    match (image.doit_source(number), image.open_doit(number, steps)) {
        (Some(source), Some(body)) => body_lines(alloc, image, pattern, number, source, body),
        _ => Ok(Text::new(alloc)),
    }
}
