// What is reached of an image, in an image of its own.
ghost use Rattle.std.specs.Prelude.{◌≡◌, ◌<◌, ◌∷◌, [], ℕ, map, filter, nat_eq, slice_get, if◌then◌else◌, option_map, IfOk, OnOk};
ghost use Rattle.class_table.specs.Valid.{IsOrderly};
ghost use Rattle.class_table.specs.View.{live, live_at};
ghost use Rattle.image_strip.specs.Anew.{place_in, ArePlaces, placed_class, placed_method, plus_class, plus_method, plus_doit, with_classes, with_methods, IsAnew};
ghost use Rattle.image_strip.specs.Reached.{is_marked};
ghost use Rattle.image_strip.specs.Stripped.{is_class_marked, stripped};

use crate::marks::Reach;
use crate::stripped::is_class_reached;
use class_table::{ClassId, ClassRec, DoIt, Image, MethodRec, MethodSlot};
use rb_base::{Memory, Steps, Text};
use st_tree::{try_copy, try_copy_doit};
use std::alloc::Global;
use std::sync::ledger::{Blank, Ledger};

/// The new slot of the class in a slot.
fn place_of(places: &[usize], id: ClassId) -> ClassId
    ensures { result ≡ place_in places.now id }
{
    ClassId(places.get(id.0).copied().unwrap_or(0))
}

/// Says which is the new slot of the class in a slot. The error is want of memory.
fn set_place(places: &mut Vec<usize>, id: ClassId, place: usize) -> Result<(), Memory>
    ensures { OnOk result ((k : ℕ) → place_in places.new.items k ≡ (if nat_eq k id then place else place_in places.old.items k)) }
{
    while places.len() <= id.0 {
        places.push(0)?;
    }
    places[id.0] = place;
    Ok(())
}

/// The new slots of the classes that are reached: they are counted in order.
fn class_places(image: &Image, reach: &Reach) -> Result<Vec<usize>, Memory>
    requires { IsOrderly image.now }
    ensures { IfOk result (λ places. ArePlaces (filter (is_class_marked image.now.classes reach.now.classes) image.now.class_order) places.items) }
{
    let mut places = Vec::new(reach.alloc());
    let mut count = 0;
    for id in image.classes() {
        if is_class_reached(image, reach, *id) {
            set_place(&mut places, *id, count)?;
            count += 1;
        }
    }
    Ok(places)
}

/// A copy of a class, with the new slot of its superclass.
fn class_copy(alloc: Global, places: &[usize], rec: &ClassRec) -> Result<ClassRec, Memory>
    ensures { IfOk result (λ copy. copy ≡ placed_class places.now rec.now) }
{
    let superclass = match rec.superclass {
        None => None,
        Some(id) => Some(place_of(places, id)),
    };
    Ok(ClassRec {
        name: rec.name,
        superclass,
        instance: rec.instance.try_copy(alloc)?,
        shared: rec.shared.try_copy(alloc)?,
        class_side: rec.class_side.try_copy(alloc)?,
        category: rec.category.try_copy(alloc)?,
        comment: rec.comment.try_copy(alloc)?,
        kernel: rec.kernel,
    })
}

/// Adds a class. The error is want of memory.
fn put_class(made: &mut Image, rec: ClassRec) -> Result<(), Memory>
    ensures { OnOk result (made.new ≡ plus_class made.old rec) }
{
    match made.add_class(rec) {
        Err(_) => Err(Memory),
        Ok(_) => Ok(()),
    }
}

/// Adds the classes that are reached to an image that has none.
fn add_classes(
    image: &Image,
    reach: &Reach,
    places: &[usize],
    made: &mut Image,
) -> Result<(), Memory>
    requires classes { made.old.classes ≡ [] }
    requires order { made.old.class_order ≡ [] }
    ensures { OnOk result (made.new ≡ with_classes made.old (map (placed_class places.now) (live image.now.classes (filter (is_class_marked image.now.classes reach.now.classes) image.now.class_order)))) }
{
    for id in image.classes() {
        if let Some(rec) = image.class_rec(*id) {
            if reach.has_class(rec.name) {
                let copy = class_copy(reach.alloc(), places, rec)?;
                put_class(made, copy)?;
            }
        }
    }
    Ok(())
}

/// A copy of the method in a live slot, with the new slot of its class.
fn method_copy<L: Ledger>(
    alloc: Global,
    image: &Image,
    places: &[usize],
    slot: MethodSlot,
    steps: &mut Steps<L>,
) -> Result<Option<MethodRec>, Memory>
    ensures { IfOk result (λ copy. copy ≡ option_map (placed_method places.now) (live_at image.now.methods image.now.method_order slot)) }
{
    let Some(info) = image.method_info(slot) else {
        return Ok(None);
    };
    let Some(tree) = image.open_body(slot, steps) else {
        return Ok(None);
    };
    Ok(Some(MethodRec {
        class: place_of(places, info.class),
        meta: info.meta,
        protocol: Text::from_slice(alloc, info.protocol)?,
        source: Text::from_slice(alloc, info.source)?,
        tree: try_copy(alloc, tree)?,
        kernel: info.kernel,
    }))
}

/// Adds a method, if there is one. The error is want of memory.
fn put_method(made: &mut Image, rec: Option<MethodRec>) -> Result<(), Memory>
    ensures { OnOk result (made.new ≡ plus_method made.old rec) }
{
    match rec {
        None => Ok(()),
        Some(rec) => match made.add_method(rec) {
            Err(_) => Err(Memory),
            Ok(_) => Ok(()),
        },
    }
}

/// Adds the methods that are reached to an image that has none.
fn add_methods<L: Ledger>(
    image: &Image,
    reach: &Reach,
    places: &[usize],
    made: &mut Image,
    steps: &mut Steps<L>,
) -> Result<(), Memory>
    requires methods { made.old.methods ≡ [] }
    requires order { made.old.method_order ≡ [] }
    ensures { OnOk result (made.new ≡ with_methods made.old (map (placed_method places.now) (live image.now.methods (filter (is_marked reach.now.methods) image.now.method_order)))) }
{
    for slot in image.methods() {
        if reach.has_method(*slot) {
            let copy = method_copy(reach.alloc(), image, places, *slot, steps)?;
            put_method(made, copy)?;
        }
    }
    Ok(())
}

/// A copy of the do-it of a number, if there are so many.
fn doit_copy<L: Ledger>(
    alloc: Global,
    image: &Image,
    number: usize,
    steps: &mut Steps<L>,
) -> Result<Option<DoIt>, Memory>
    ensures { IfOk result (λ copy. copy ≡ slice_get image.now.doits number) }
{
    let Some(source) = image.doit_source(number) else {
        return Ok(None);
    };
    let Some(body) = image.open_doit(number, steps) else {
        return Ok(None);
    };
    Ok(Some(DoIt {
        source: Text::from_slice(alloc, source)?,
        body: try_copy_doit(alloc, body)?,
    }))
}

/// Adds a do-it, if there is one. The error is want of memory.
fn put_doit(made: &mut Image, doit: Option<DoIt>) -> Result<(), Memory>
    ensures { OnOk result (made.new ≡ plus_doit made.old doit) }
{
    match doit {
        None => Ok(()),
        Some(doit) => match made.add_doit(doit) {
            Err(_) => Err(Memory),
            Ok(()) => Ok(()),
        },
    }
}

/// Adds the do-its to an image that has none.
fn add_doits<L: Ledger>(
    alloc: Global,
    image: &Image,
    made: &mut Image,
    steps: &mut Steps<L>,
) -> Result<(), Memory>
    requires { made.old.doits ≡ [] }
    ensures { OnOk result (made.new ≡ record made.old { doits = image.now.doits }) }
{
    for number in 0..image.doits() {
        let copy = doit_copy(alloc, image, number, steps)?;
        put_doit(made, copy)?;
    }
    Ok(())
}

/// An image of what is reached and of all do-its, which has no names. It takes one pass over the image. The error is want of
/// memory.
pub(crate) fn anew<L: Ledger>(image: &Image, reach: &Reach, blank: Blank) -> Result<Image, Memory>
    requires orderly { IsOrderly image.now }
    requires name { blank.name ≡ L.name }
    requires parts { blank.parts ≡ L.parts }
    requires some { 0 < L.parts }
    ensures { IfOk result (IsAnew (stripped image.now reach.now)) }
{
    let mut steps = Steps::<L>::new(blank);
    let places = class_places(image, reach)?;
    let mut made = Image::new(reach.alloc());
    add_classes(image, reach, &places, &mut made)?;
    add_methods(image, reach, &places, &mut made, &mut steps)?;
    add_doits(reach.alloc(), image, &mut made, &mut steps)?;
    made.set_heads(image.heads());
    Ok(made)
}
