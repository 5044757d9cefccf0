// The lines of the nodes that a pattern matches.
ghost use Rattle.std.specs.Prelude.{◌≡◌, ◌<◌, ◌++◌, ℕ, List, length, IfOk, OnOk, OnErr};
ghost use Rattle.rb_base.specs.Names.{name_at};
ghost use Rattle.class_table.specs.View.{image_of};
ghost use Rattle.class_table.specs.Valid.{IsOrderly};
ghost use Rattle.image_queries.specs.Spelled.{AreSpelled};
ghost use Rattle.image_queries.specs.Parts.{AreTexts};
ghost use Rattle.query_model.specs.Lines.{AreLines};
ghost use Rattle.pattern_model.specs.Named.{map_pattern};
ghost use Rattle.patterns.specs.Names.{PatternNames};
ghost use Rattle.rewrite_model.specs.Searched.{matches};
ghost use Rattle.image_search.specs.Parts.{IsSlotText, IsDoItText};

use crate::parts::{number_lines, slot_lines};
use class_table::Image;
use patterns::Pattern;
use rb_base::{Memory, Steps, Text};
use std::alloc::Global;
use std::marker::Brand;
use std::sync::ledger::{Blank, Ledger};

/// The lines of the methods.
fn method_lines<L: Ledger>(
    alloc: Global,
    image: &Image,
    pattern: &Pattern,
    steps: &mut Steps<L>,
) -> Result<Text, Memory>
    requires { IsOrderly image.now }
    ensures { IfOk result (λ text. AreTexts (λ place slot lines. IsSlotText image.now pattern.now slot lines) 0 image.now.method_order text) }
{
    let mut text = Text::new(alloc);
    for slot in image.methods() {
        let lines = slot_lines(alloc, image, pattern, *slot, steps)?;
        text.push_slice(lines.as_slice())?;
    }
    Ok(text)
}

/// The lines of the do-its.
fn doit_lines<L: Ledger>(
    alloc: Global,
    image: &Image,
    pattern: &Pattern,
    steps: &mut Steps<L>,
) -> Result<Text, Memory>
    ensures { IfOk result (λ text. AreTexts (λ number d lines. IsDoItText image.now pattern.now number d lines) 0 image.now.doits text) }
{
    let mut text = Text::new(alloc);
    let mut number = 0;
    while number < image.doits() {
        let lines = number_lines(alloc, image, pattern, number, steps)?;
        text.push_slice(lines.as_slice())?;
        number += 1;
    }
    Ok(text)
}

/// The lines of all methods and do-its.
fn all_lines<L: Ledger>(
    alloc: Global,
    image: &Image,
    pattern: &Pattern,
    blank: Blank,
) -> Result<Text, Memory>
    requires orderly { IsOrderly image.now }
    requires known { PatternNames (λ n. n < length image.now.names) pattern.now }
    requires name { blank.name ≡ L.name }
    requires parts { blank.parts ≡ L.parts }
    requires some { 0 < L.parts }
    ensures { IfOk result (λ text. AreLines (image_of image.now) (matches (map_pattern (name_at image.now.names) pattern.now) (image_of image.now)) text) }
{
    let mut steps = Steps::<L>::new(blank);
    let mut text = method_lines(alloc, image, pattern, &mut steps)?;
    let doits = doit_lines(alloc, image, pattern, &mut steps)?;
    text.push_slice(doits.as_slice())?;
    Ok(text)
}

/// Appends a line for each node that the pattern matches in the methods of users and the do-its, in the order of the image
/// and then of the search: the method or do-it, and where the node begins and ends in its source. The error is want of
/// memory; then `out` is as it was.
pub fn write_matches(
    alloc: Global,
    image: &Image,
    pattern: &Pattern,
    out: &mut Text,
) -> Result<(), Memory>
    requires orderly { IsOrderly image.now }
    requires spelled { AreSpelled (image_of image.now) }
    requires known { PatternNames (λ n. n < length image.now.names) pattern.now }
    ensures written { OnOk result ((text : List ℕ) × (out.new ≡ out.old ++ text) × AreLines (image_of image.now) (matches (map_pattern (name_at image.now.names) pattern.now) (image_of image.now)) text) }
    ensures kept { OnErr result (out.new ≡ out.old) }
{
    let found = all_lines::<Brand>(alloc, image, pattern, Blank::new(1))?;
    out.push_slice(found.as_slice())
}
