// The changes by which a rule is applied.
ghost use Rattle.std.specs.Prelude.{◌≡◌, ◌<◌, length, IfOk, OnOk};
ghost use Rattle.rb_base.specs.Names.{HasNoTwice};
ghost use Rattle.event_trees.specs.Naming.{Grows};
ghost use Rattle.class_table.specs.declared.record.Place.TheVariants as places;
ghost use Rattle.class_table.specs.Valid.{IsOrderly};
ghost use Rattle.image_rewriting.specs.Changed.{rule_of, KnowsRule};
ghost use Rattle.image_rewriting.specs.Planned.{IsFound, places_of, IsRulePlan};

use crate::changing::{changed_body, matched_doit, matched_method};
use change_set::{Change, Changes};
use class_table::{DoIt, Image, MethodSlot, Place};
use patterns::Rule;
use plans::Plan;
use rb_base::{Memory, Steps, Text};
use st_formatter::{format_doit, format_method};
use std::alloc::Global;
use std::sync::ledger::Ledger;

/// The places of all code: those of the live methods, and those of the do-its.
fn all_places(alloc: Global, image: &Image) -> Result<Vec<Place>, Memory>
    ensures { IfOk result (λ found. found.items ≡ places_of image.now) }
{
    let mut found = Vec::new(alloc);
    for slot in image.methods() {
        found.push(Place::Method(*slot))?;
    }
    for number in 0..image.doits() {
        found.push(Place::DoIt(number))?;
    }
    Ok(found)
}

/// The change of the method in a slot, if it is one of a user of which the rule makes another tree, comments counted. New names are
/// added to those of the image.
fn method_change<L: Ledger>(
    alloc: Global,
    image: &mut Image,
    rule: &Rule,
    slot: MethodSlot,
    steps: &mut Steps<L>,
) -> Result<Option<Change>, Memory>
    requires orderly { IsOrderly image.old }
    requires rule { KnowsRule image.old.names rule.now }
    ensures rest { image.new ≡ record image.old { names = image.new.names } }
    ensures grows { Grows image.old.names image.new.names }
    ensures once { HasNoTwice image.new.names }
    ensures found { IfOk result (λ found. IsFound image.old image.new.names rule.now (places.Method slot) found) }
{
    let Some(mut method) = matched_method(alloc, image, rule, slot, steps)? else {
        return Ok(None);
    };
    let Some(body) = changed_body(alloc, image, rule, &method.tree.body)? else {
        return Ok(None);
    };
    method.tree.body = body;
    let mut source = Text::new(alloc);
    format_method(alloc, &method.tree, image.names(), &mut source)?;
    method.source = source;
    Ok(Some(Change::Method { slot, rec: method }))
}

/// The change of the do-it of a number, if the rule makes another body of it.
fn doit_change<L: Ledger>(
    alloc: Global,
    image: &mut Image,
    rule: &Rule,
    number: usize,
    steps: &mut Steps<L>,
) -> Result<Option<Change>, Memory>
    requires orderly { IsOrderly image.old }
    requires rule { KnowsRule image.old.names rule.now }
    ensures rest { image.new ≡ record image.old { names = image.new.names } }
    ensures grows { Grows image.old.names image.new.names }
    ensures once { HasNoTwice image.new.names }
    ensures found { IfOk result (λ found. IsFound image.old image.new.names rule.now (places.DoIt number) found) }
{
    let Some(before) = matched_doit(alloc, image, rule, number, steps)? else {
        return Ok(None);
    };
    let Some(body) = changed_body(alloc, image, rule, &before)? else {
        return Ok(None);
    };
    let mut source = Text::new(alloc);
    format_doit(alloc, &body, image.names(), &mut source)?;
    let doit = DoIt { source, body };
    Ok(Some(Change::DoIt { number, doit }))
}

/// The change of the code at a place.
fn code_change<L: Ledger>(
    alloc: Global,
    image: &mut Image,
    rule: &Rule,
    place: Place,
    steps: &mut Steps<L>,
) -> Result<Option<Change>, Memory>
    requires orderly { IsOrderly image.old }
    requires rule { KnowsRule image.old.names rule.now }
    ensures rest { image.new ≡ record image.old { names = image.new.names } }
    ensures grows { Grows image.old.names image.new.names }
    ensures once { HasNoTwice image.new.names }
    ensures found { IfOk result (λ found. IsFound image.old image.new.names rule.now place found) }
{
    match place {
        Place::Method(slot) => method_change(alloc, image, rule, slot, steps),
        Place::DoIt(number) => doit_change(alloc, image, rule, number, steps),
    }
}

/// The changes by which the rule is applied in each method of a user and in each do-it: one of each whose tree becomes another one,
/// comments counted, with its canonical text. Each tree is opened once. The names of selectors that keywords make are added to
/// those of the image, which for the rest stays as it is. The error is want of memory.
pub fn plan_rule<L: Ledger>(
    alloc: Global,
    image: &mut Image,
    rule: &Rule,
    steps: &mut Steps<L>,
) -> Result<Plan, Memory>
    requires orderly { IsOrderly image.old }
    requires rule { KnowsRule image.old.names rule.now }
    ensures rest { image.new ≡ record image.old { names = image.new.names } }
    ensures grows { Grows image.old.names image.new.names }
    ensures once { HasNoTwice image.new.names }
    ensures plan { IfOk result (λ found. IsRulePlan image.new (rule_of image.old.names rule.now) found.changes found.touched.items) }
{
    let places = all_places(alloc, image)?;
    let mut changes = Changes::new(alloc);
    let mut touched = Vec::new(alloc);
    for place in places.as_slice() {
        if let Some(change) = code_change(alloc, image, rule, *place, steps)? {
            changes.push(change)?;
            touched.push(*place)?;
        }
    }
    Ok(Plan { changes, touched })
}
