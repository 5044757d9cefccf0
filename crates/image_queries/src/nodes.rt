// The lines of the nodes of one method and of one do-it.
ghost use Rattle.std.specs.Prelude.{◌≡◌, ◌<◌, ◌+◌, ◌++◌, codes, false, length, slice_get, IfOk};
ghost use Rattle.std.specs.Option.{ForSome};
ghost use Rattle.std.specs.Fmt.{decimal};
ghost use Rattle.token_model.specs.declared.kind.Dialect.TheVariants.{Second};
ghost use Rattle.grammar_model.specs.Spanned.{SpannedSequence, SpannedMethod};
ghost use Rattle.grammar_model.specs.Spelling.{SpellsDoItAt, SpellsMethodAt};
ghost use Rattle.event_spans.specs.Answers.{sequence_spans};
ghost use Rattle.st_tree.specs.View.{statements_of, sequence_of, method_of};
ghost use Rattle.class_table.specs.View.{live_at};
ghost use Rattle.class_table.specs.Valid.{IsLive, IsOrderly};
ghost use Rattle.image_queries.specs.Asked.{query_of, mentions, is_meant, meaning_in_tree, meaning_in_body};
ghost use Rattle.image_queries.specs.Marks.{statements_marks, marked_lines};
ghost use Rattle.image_queries.specs.Parts.{title_of, IsSlotText, IsDoItText};

use crate::lines::{lines_in_doit, lines_in_method};
use crate::marks::{is_any, marks_of};
use crate::query::Query;
use crate::titles::{doit_title, method_title};
use class_table::{Image, MethodInfo, MethodSlot};
use rb_base::{Memory, Steps, Text};
use st_spans::{Spans, doit_spans, spans};
use st_tree::{Method, Sequence};
use std::alloc::Global;
use std::sync::ledger::Ledger;

/// The nodes of a method of a user, in their order. Want of memory also where the source spells no method.
fn method_nodes(alloc: Global, source: &[u8]) -> Result<Spans, Memory>
    ensures { IfOk result (λ nodes. (tree : SpannedMethod) → SpellsMethodAt Second false source.now tree → nodes ≡ sequence_spans tree.body) }
{
    match spans(alloc, source) {
        Ok(nodes) => Ok(nodes),
        Err(_) => Err(Memory),
    }
}

/// The nodes of a do-it, in their order. Want of memory also where the source spells no do-it.
fn doit_nodes(alloc: Global, source: &[u8]) -> Result<Spans, Memory>
    ensures { IfOk result (λ nodes. (tree : SpannedSequence) → SpellsDoItAt Second source.now tree → nodes ≡ sequence_spans tree) }
{
    match doit_spans(alloc, source) {
        Ok(nodes) => Ok(nodes),
        Err(_) => Err(Memory),
    }
}

/// The lines of a method of a user.
fn tree_lines(
    alloc: Global,
    image: &Image,
    query: &Query,
    info: &MethodInfo<'_>,
    tree: &Method,
) -> Result<Text, Memory>
    requires orderly { IsOrderly image.now }
    requires live { IsLive image.now.class_order info.now.class }
    ensures { IfOk result (λ text. (spelled : SpannedMethod) → SpellsMethodAt Second false info.now.source.now spelled →
        text ≡ marked_lines (λ path. is_meant (query_of query.now) (meaning_in_tree image.now info.now.class info.now.meta (method_of tree.now) path))
        (title_of image.now.names image.now.classes info.now.class info.now.meta info.now.selector) (sequence_spans spelled.body)
        (statements_marks (mentions (query_of query.now)) (statements_of tree.now.body.statements))) }
{
    let marks = marks_of(alloc, query, &tree.body)?;
    if !is_any(marks.as_slice()) {
        return Ok(Text::new(alloc));
    }
    let title = method_title(alloc, image, info)?;
    let nodes = method_nodes(alloc, info.source)?;
    lines_in_method(
        alloc,
        image,
        query,
        info,
        tree,
        title.as_slice(),
        nodes.as_slice(),
        marks.as_slice(),
    )
}

/// The lines of the method in a live slot.
pub(crate) fn slot_lines<L: Ledger>(
    alloc: Global,
    image: &Image,
    query: &Query,
    slot: MethodSlot,
    steps: &mut Steps<L>,
) -> Result<Text, Memory>
    requires orderly { IsOrderly image.now }
    requires live { IsLive image.now.method_order slot }
    ensures { IfOk result (λ text. IsSlotText image.now (query_of query.now) slot text) }
{
    let Some(info) = image.method_info(slot) else {
        return Ok(Text::new(alloc));
    };
    if info.kernel {
        return Ok(Text::new(alloc));
    }
    match image.open_body(slot, steps) {
        None => Ok(Text::new(alloc)),
        Some(tree) => tree_lines(alloc, image, query, &info, tree),
    }
}

/// The lines of a do-it with the number.
fn body_lines(
    alloc: Global,
    image: &Image,
    query: &Query,
    number: usize,
    source: &[u8],
    body: &Sequence,
) -> Result<Text, Memory>
    requires orderly { IsOrderly image.now }
    requires number { number < usize.MAX }
    ensures { IfOk result (λ text. (spelled : SpannedSequence) → SpellsDoItAt Second source.now spelled →
        text ≡ marked_lines (λ path. is_meant (query_of query.now) (meaning_in_body image.now (sequence_of body.now) path))
        (codes "doit " ++ decimal (number + 1)) (sequence_spans spelled) (statements_marks (mentions (query_of query.now)) (statements_of body.now.statements))) }
{
    let marks = marks_of(alloc, query, body)?;
    if !is_any(marks.as_slice()) {
        return Ok(Text::new(alloc));
    }
    let title = doit_title(alloc, number)?;
    let nodes = doit_nodes(alloc, source)?;
    lines_in_doit(
        alloc,
        image,
        query,
        body,
        title.as_slice(),
        nodes.as_slice(),
        marks.as_slice(),
    )
}

/// The lines of the do-it of a number.
pub(crate) fn number_lines<L: Ledger>(
    alloc: Global,
    image: &Image,
    query: &Query,
    number: usize,
    steps: &mut Steps<L>,
) -> Result<Text, Memory>
    requires orderly { IsOrderly image.now }
    requires there { number < length image.now.doits }
    requires number { number < usize.MAX }
    ensures { IfOk result (λ text. ForSome (slice_get image.now.doits number) (λ d. IsDoItText image.now (query_of query.now) number d text)) }
{
    match (image.doit_source(number), image.open_doit(number, steps)) {
        (Some(source), Some(body)) => body_lines(alloc, image, query, number, source, body),
        _ => Ok(Text::new(alloc)),
    }
}
