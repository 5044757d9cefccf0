// The lines of the nodes of all methods and do-its.
ghost use Rattle.std.specs.Prelude.{IfOk};
ghost use Rattle.class_table.specs.Valid.{IsOrderly};
ghost use Rattle.image_queries.specs.Asked.{query_of};
ghost use Rattle.image_queries.specs.Parts.{AreTexts, IsSlotText, IsDoItText};

use crate::nodes::{number_lines, slot_lines};
use crate::query::Query;
use class_table::Image;
use rb_base::{Memory, Steps, Text};
use std::alloc::Global;
use std::sync::ledger::Ledger;

/// The lines of the methods.
pub(crate) fn method_lines<L: Ledger>(
    alloc: Global,
    image: &Image,
    query: &Query,
    steps: &mut Steps<L>,
) -> Result<Text, Memory>
    requires { IsOrderly image.now }
    ensures { IfOk result (λ text. AreTexts (λ place slot lines. IsSlotText image.now (query_of query.now) slot lines) 0 image.now.method_order text) }
{
    let mut text = Text::new(alloc);
    for slot in image.methods() {
        let lines = slot_lines(alloc, image, query, *slot, steps)?;
        text.push_slice(lines.as_slice())?;
    }
    Ok(text)
}

/// The lines of the do-its.
pub(crate) fn doit_lines<L: Ledger>(
    alloc: Global,
    image: &Image,
    query: &Query,
    steps: &mut Steps<L>,
) -> Result<Text, Memory>
    requires { IsOrderly image.now }
    ensures { IfOk result (λ text. AreTexts (λ number d lines. IsDoItText image.now (query_of query.now) number d lines) 0 image.now.doits text) }
{
    let mut text = Text::new(alloc);
    let mut number = 0;
    while number < image.doits() {
        let lines = number_lines(alloc, image, query, number, steps)?;
        text.push_slice(lines.as_slice())?;
        number += 1;
    }
    Ok(text)
}
