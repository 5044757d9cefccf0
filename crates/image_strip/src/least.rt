// What is reached at least.
ghost use Rattle.std.specs.Prelude.{◌≡◌, ◌∷◌, ◌++◌, [], true, nat_eq, IfOk, OnOk};
ghost use Rattle.std.specs.Option.{ForSome};
ghost use Rattle.image_model.specs.Image.{plus};
ghost use Rattle.image_model.specs.Words.{number_words};
ghost use Rattle.strip_model.specs.Reach.{reach};
ghost use Rattle.strip_model.specs.Within.{IsWithin};
ghost use Rattle.class_table.specs.Valid.{IsLive, IsOrderly};
ghost use Rattle.class_table.specs.View.{number_image};
ghost use Rattle.image_strip.specs.Closed.{is_closed_with, start_of};
ghost use Rattle.image_strip.specs.Code.{doit_at};
ghost use Rattle.image_strip.specs.Least.{IsAdded, AreDoItsAdded, IsPass, IsStep, is_method_settled, option_names};
ghost use Rattle.image_strip.specs.Once.{HasMethodsOnce};
ghost use Rattle.image_strip.specs.Reached.{reached};
ghost use Rattle.image_strip.specs.SlotsClosed.{class_closed};

use crate::by_name::{methods_by_name, row};
use crate::closed::{is_class_closed, is_wanted};
use crate::code::{doit_classes, method_classes, selectors_sent};
use crate::marks::Reach;
use class_table::{ClassId, Image, MethodSlot};
use rb_base::{Ids, Memory, NameId, Steps};
use st_tree::Sequence;
use std::alloc::Global;
use std::sync::ledger::Ledger;

/// Puts in what a do-it demands.
fn add_doit(alloc: Global, image: &Image, reach: &mut Reach, body: &Sequence) -> Result<(), Memory>
    requires { IsOrderly image.now }
    ensures { OnOk result (IsAdded (doit_at image.now body.now) reach.old reach.new) }
{
    let classes = doit_classes(alloc, image, body)?;
    let selectors = selectors_sent(alloc, body)?;
    reach.add_names(&classes, &selectors)?;
    Ok(())
}

/// Puts in what each do-it of the image demands.
fn add_doits<L: Ledger>(
    alloc: Global,
    image: &Image,
    reach: &mut Reach,
    steps: &mut Steps<L>,
) -> Result<(), Memory>
    requires { IsOrderly image.now }
    ensures { OnOk result (AreDoItsAdded image.now image.now.doits reach.old reach.new) }
{
    for number in 0..image.doits() {
        if let Some(body) = image.open_doit(number, steps) {
            add_doit(alloc, image, reach, body)?;
        }
    }
    Ok(())
}

/// Puts the name of the class in a live slot at the end, if there is one.
fn put_name(image: &Image, class: Option<ClassId>, classes: &mut Ids) -> Result<(), Memory>
    requires { ForSome class (IsLive image.now.class_order) }
    ensures { OnOk result (classes.new ≡ classes.old ++ option_names image.now class) }
{
    if let Some(id) = class {
        if let Some(rec) = image.class_rec(id) {
            classes.push(rec.name)?;
        }
    }
    Ok(())
}

/// Puts in the method in a live slot, if it must be and is not, with its class and what its code demands. Answers whether
/// this is so.
fn visit<L: Ledger>(
    alloc: Global,
    image: &Image,
    reach: &mut Reach,
    slot: MethodSlot,
    steps: &mut Steps<L>,
) -> Result<bool, Memory>
    requires orderly { IsOrderly image.now }
    requires live { IsLive image.now.method_order slot }
    ensures { IfOk result (λ is. IsPass image.now (is_method_settled image.now) (slot ∷ []) is reach.old reach.new) }
{
    let Some(info) = image.method_info(slot) else {
        return Ok(false);
    };
    if reach.has_method(slot) {
        return Ok(false);
    }
    if !is_wanted(image, reach, &info) {
        return Ok(false);
    }
    let Some(tree) = image.open_body(slot, steps) else {
        return Ok(false);
    };
    let mut classes = method_classes(alloc, image, info.class, info.meta, tree)?;
    put_name(image, Some(info.class), &mut classes)?;
    let selectors = selectors_sent(alloc, &tree.body)?;
    reach.add_names(&classes, &selectors)?;
    reach.add_method(slot)?;
    Ok(true)
}

/// Puts in what the class in a live slot demands, if not all of it is: the class itself, if it is one of the kernel, and its
/// superclass, if it is reached. Answers whether this is so.
fn raise(alloc: Global, image: &Image, reach: &mut Reach, id: ClassId) -> Result<bool, Memory>
    requires orderly { IsOrderly image.now }
    requires live { IsLive image.now.class_order id }
    ensures { IfOk result (λ is. IsPass image.now (class_closed image.now) (id ∷ []) is reach.old reach.new) }
{
    if is_class_closed(image, reach, id) {
        return Ok(false);
    }
    let Some(rec) = image.class_rec(id) else {
        return Ok(false);
    };
    let mut classes = Ids::new(alloc);
    put_name(image, Some(id), &mut classes)?;
    put_name(image, rec.superclass, &mut classes)?;
    reach.add_names(&classes, &Ids::new(alloc))?;
    Ok(true)
}

/// The same for each live class.
fn raise_all(alloc: Global, image: &Image, reach: &mut Reach) -> Result<bool, Memory>
    requires { IsOrderly image.now }
    ensures { IfOk result (λ is. IsPass image.now (class_closed image.now) image.now.class_order is reach.old reach.new) }
{
    let mut changed = false;
    for id in image.classes() {
        let raised = raise(alloc, image, reach, *id)?;
        changed = changed || raised;
    }
    Ok(changed)
}

/// Visits each live method. Answers whether one of them had to be put in.
fn visit_all<L: Ledger>(
    alloc: Global,
    image: &Image,
    reach: &mut Reach,
    steps: &mut Steps<L>,
) -> Result<bool, Memory>
    requires { IsOrderly image.now }
    ensures { IfOk result (λ is. IsPass image.now (is_method_settled image.now) image.now.method_order is reach.old reach.new) }
{
    let mut changed = false;
    for slot in image.methods() {
        let visited = visit(alloc, image, reach, *slot, steps)?;
        changed = changed || visited;
    }
    Ok(changed)
}

/// Visits those of the slots that are live.
fn visit_each<L: Ledger>(
    alloc: Global,
    image: &Image,
    reach: &mut Reach,
    slots: &[MethodSlot],
    steps: &mut Steps<L>,
) -> Result<(), Memory>
    requires { IsOrderly image.now }
    ensures { OnOk result (IsStep image.now reach.old reach.new) }
{
    for slot in slots {
        if image.method_info(*slot).is_some() {
            visit(alloc, image, reach, *slot, steps)?;
        }
    }
    Ok(())
}

/// Puts in what follows from a name: what the class of that name demands, and of these slots the methods that must be in.
fn follow<L: Ledger>(
    alloc: Global,
    image: &Image,
    reach: &mut Reach,
    name: NameId,
    slots: &[MethodSlot],
    steps: &mut Steps<L>,
) -> Result<(), Memory>
    requires { IsOrderly image.now }
    ensures { OnOk result (IsStep image.now reach.old reach.new) }
{
    if let Some(id) = image.class_named(name) {
        raise(alloc, image, reach, id)?;
    }
    visit_each(alloc, image, reach, slots, steps)?;
    Ok(())
}

/// Puts in more of what is reached, in any order of calls: each name that comes in is followed to the classes and the methods of
/// that name alone. Nothing is left, but that is for another pass to see.
fn follow_all<L: Ledger>(
    alloc: Global,
    image: &Image,
    reach: &mut Reach,
    steps: &mut Steps<L>,
) -> Result<(), Memory>
    requires { IsOrderly image.now }
    ensures { OnOk result (IsStep image.now reach.old reach.new) }
{
    raise_all(alloc, image, reach)?;
    visit_all(alloc, image, reach, steps)?;
    let rows = methods_by_name(alloc, image)?;
    // A name comes in at most twice: as that of a class, and as a selector.
    for _ in 0..image.names().len().saturating_mul(2) {
        let Some(name) = reach.take_fresh() else {
            return Ok(());
        };
        let slots = row(&rows, name);
        follow(alloc, image, reach, name, slots, steps)?;
    }
    Ok(())
}

/// What the runs of the image with an expression as its last do-it can reach: the least that is closed. Opens the body of each
/// do-it and of each method that is reached once. The error is want of memory.
pub fn reach<L: Ledger>(
    alloc: Global,
    image: &Image,
    start: &Sequence,
    steps: &mut Steps<L>,
) -> Result<Reach, Memory>
    requires orderly { IsOrderly image.now }
    requires once { HasMethodsOnce image.now }
    ensures closed { IfOk result (λ found. is_closed_with image.now (start_of start.now) found ≡ true) }
    ensures within { IfOk result (λ found. IsWithin nat_eq (reached image.now found) (reach (number_words image.now.names) (plus (number_image image.now) (start_of start.now)))) }
    ensures whole { IfOk result (λ found. IsWithin nat_eq (reach (number_words image.now.names) (plus (number_image image.now) (start_of start.now))) (reached image.now found)) }
{
    let mut found = Reach::new(alloc);
    add_doit(alloc, image, &mut found, start)?;
    add_doits(alloc, image, &mut found, steps)?;
    follow_all(alloc, image, &mut found, steps)?;
    let mut changed = true;
    while changed {
        let raised = raise_all(alloc, image, &mut found)?;
        let visited = visit_all(alloc, image, &mut found, steps)?;
        changed = raised || visited;
    }
    Ok(found)
}
