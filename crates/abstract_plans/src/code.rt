// The change of the code at a place.
ghost use Rattle.std.specs.Prelude.{◌≡◌, ◌<◌, length, IfOk};
ghost use Rattle.image_model.specs.ImageNames.{ImageNames};
ghost use Rattle.class_table.specs.declared.record.Place.TheVariants as places;
ghost use Rattle.class_table.specs.Valid.{IsOrderly};
ghost use Rattle.reference_index.specs.Mentioned.{IsIndexOf};
ghost use Rattle.remade_plans.specs.Remade.{image_after, change_at};
ghost use Rattle.abstract_plans.specs.Abstracted.{remaking_of, AreListed};

use abstracted_code::{Abstraction, abstracted_doit, abstracted_method};
use change_set::{Change, Changes};
use class_table::{DoIt, Image, MethodRec, MethodSlot, Place};
use plans::Plan;
use rb_base::{Memory, Steps, Text};
use reference_index::Index;
use st_formatter::{format_doit, format_method};
use std::alloc::Global;
use std::sync::ledger::Ledger;

/// The change of the method in a slot.
fn method_change<L: Ledger>(
    alloc: Global,
    image: &Image,
    slot: MethodSlot,
    abstraction: &Abstraction,
    steps: &mut Steps<L>,
) -> Result<Option<Change>, Memory>
    requires orderly { IsOrderly image.now }
    requires known { ImageNames (λ n. n < length image.now.names) (image_after image.now (remaking_of image.now abstraction.now)) }
    ensures { IfOk result (λ found. found ≡ change_at image.now (remaking_of image.now abstraction.now) (places.Method slot)) }
{
    let Some(info) = image.method_info(slot) else {
        return Ok(None);
    };
    let Some(old) = image.open_body(slot, steps) else {
        return Ok(None);
    };
    let made = abstracted_method(alloc, image, info.class, info.meta, old, abstraction)?;
    let Some(tree) = made else {
        return Ok(None);
    };
    let mut source = Text::new(alloc);
    format_method(alloc, &tree, image.names(), &mut source)?;
    let rec = MethodRec {
        class: info.class,
        meta: info.meta,
        protocol: Text::from_slice(alloc, info.protocol)?,
        source,
        tree,
        kernel: info.kernel,
    };
    Ok(Some(Change::Method { slot, rec }))
}

/// The change of the do-it of a number.
fn doit_change<L: Ledger>(
    alloc: Global,
    image: &Image,
    number: usize,
    abstraction: &Abstraction,
    steps: &mut Steps<L>,
) -> Result<Option<Change>, Memory>
    requires orderly { IsOrderly image.now }
    requires known { ImageNames (λ n. n < length image.now.names) (image_after image.now (remaking_of image.now abstraction.now)) }
    ensures { IfOk result (λ found. found ≡ change_at image.now (remaking_of image.now abstraction.now) (places.DoIt number)) }
{
    let Some(old) = image.open_doit(number, steps) else {
        return Ok(None);
    };
    let made = abstracted_doit(alloc, image, old, abstraction)?;
    let Some(body) = made else {
        return Ok(None);
    };
    let mut source = Text::new(alloc);
    format_doit(alloc, &body, image.names(), &mut source)?;
    let doit = DoIt { source, body };
    Ok(Some(Change::DoIt { number, doit }))
}

/// The change of the code at a place, if it means the variable. The source of changed code is its canonical text. Opens the code
/// once.
fn code_change<L: Ledger>(
    alloc: Global,
    image: &Image,
    place: Place,
    abstraction: &Abstraction,
    steps: &mut Steps<L>,
) -> Result<Option<Change>, Memory>
    requires orderly { IsOrderly image.now }
    requires known { ImageNames (λ n. n < length image.now.names) (image_after image.now (remaking_of image.now abstraction.now)) }
    ensures { IfOk result (λ found. found ≡ change_at image.now (remaking_of image.now abstraction.now) place) }
{
    match place {
        Place::Method(slot) => method_change(alloc, image, slot, abstraction, steps),
        Place::DoIt(number) => doit_change(alloc, image, number, abstraction, steps),
    }
}

/// The changes of all code that means the variable. Only code that mentions its name is opened, each once.
pub(crate) fn code_changes<L: Ledger>(
    alloc: Global,
    image: &Image,
    index: &Index,
    abstraction: &Abstraction,
    steps: &mut Steps<L>,
) -> Result<Plan, Memory>
    requires orderly { IsOrderly image.now }
    requires index { IsIndexOf image.now index.now }
    requires known { ImageNames (λ n. n < length image.now.names) (image_after image.now (remaking_of image.now abstraction.now)) }
    ensures { IfOk result (λ found. AreListed image.now index.now abstraction.now found.changes found.touched.items) }
{
    let mut changes = Changes::new(alloc);
    let mut touched = Vec::new(alloc);
    for place in index.listed(abstraction.variable) {
        if let Some(change) = code_change(alloc, image, *place, abstraction, steps)? {
            changes.push(change)?;
            touched.push(*place)?;
        }
    }
    Ok(Plan { changes, touched })
}
