// Whether what is reached is closed.
ghost use Rattle.std.specs.Prelude.{◌≡◌, ◌&&◌, ◌||◌, true, slice_get, IfOk};
ghost use Rattle.std.specs.List.{list_all};
ghost use Rattle.std.specs.Option.{option_map_or, ForSome};
ghost use Rattle.class_table.specs.Valid.{IsLive, IsOrderly};
ghost use Rattle.image_strip.specs.Closed.{is_closed_with, start_of};
ghost use Rattle.image_strip.specs.Code.{doit_at};
ghost use Rattle.image_strip.specs.Once.{HasMethodsOnce};
ghost use Rattle.image_strip.specs.Reached.{is_marked};
ghost use Rattle.image_strip.specs.SlotsClosed.{class_closed, code_closed, method_closed, doit_closed};
ghost use Rattle.image_strip.specs.Stripped.{is_class_marked};

use crate::code::{doit_classes, method_classes, selectors_sent};
use crate::marks::Reach;
use crate::stripped::is_class_reached;
use class_table::{ClassId, Image, MethodInfo, MethodSlot};
use rb_base::{Memory, Steps};
use st_tree::Sequence;
use std::alloc::Global;
use std::sync::ledger::Ledger;

/// Whether the class in the slot is reached, if there is one.
fn is_superclass_reached(image: &Image, reach: &Reach, superclass: Option<ClassId>) -> bool
    requires { ForSome superclass (IsLive image.now.class_order) }
    ensures { result ≡ option_map_or (is_class_marked image.now.classes reach.now.classes) superclass true }
{
    match superclass {
        None => true,
        Some(id) => is_class_reached(image, reach, id),
    }
}

/// Whether what the class in a live slot demands is reached: the class itself, if it is one of the kernel, and its superclass,
/// if it is reached.
pub(crate) fn is_class_closed(image: &Image, reach: &Reach, id: ClassId) -> bool
    requires orderly { IsOrderly image.now }
    requires live { IsLive image.now.class_order id }
    ensures { result ≡ class_closed image.now reach.now id }
{
    match image.class_rec(id) {
        None => true,
        Some(rec) => {
            if reach.has_class(rec.name) {
                is_superclass_reached(image, reach, rec.superclass)
            } else {
                !rec.kernel
            }
        }
    }
}

/// Whether the method of which this is known must be reached: it is one of the kernel, or its class and its selector are
/// reached.
pub(crate) fn is_wanted(image: &Image, reach: &Reach, info: &MethodInfo<'_>) -> bool
    requires { IsLive image.now.class_order info.now.class }
    ensures { result ≡ (info.now.kernel || (is_class_marked image.now.classes reach.now.classes info.now.class && is_marked reach.now.selectors info.now.selector)) }
{
    info.kernel || (is_class_reached(image, reach, info.class) && reach.has_selector(info.selector))
}

/// Whether what a do-it demands is reached.
fn is_doit_closed(
    alloc: Global,
    image: &Image,
    reach: &Reach,
    body: &Sequence,
) -> Result<bool, Memory>
    requires { IsOrderly image.now }
    ensures { IfOk result (λ is. is ≡ code_closed reach.now (doit_at image.now body.now)) }
{
    let classes = doit_classes(alloc, image, body)?;
    let selectors = selectors_sent(alloc, body)?;
    Ok(reach.has_all(&classes, &selectors))
}

/// Whether what the method in a live slot demands is reached: the method itself, if it must be, and if it is reached its class,
/// and what its code demands.
fn is_method_closed<L: Ledger>(
    alloc: Global,
    image: &Image,
    reach: &Reach,
    slot: MethodSlot,
    steps: &mut Steps<L>,
) -> Result<bool, Memory>
    requires orderly { IsOrderly image.now }
    requires live { IsLive image.now.method_order slot }
    ensures { IfOk result (λ is. is ≡ method_closed image.now reach.now slot) }
{
    let Some(info) = image.method_info(slot) else {
        return Ok(true);
    };
    if !reach.has_method(slot) {
        return Ok(!is_wanted(image, reach, &info));
    }
    if !is_class_reached(image, reach, info.class) {
        return Ok(false);
    }
    match image.open_body(slot, steps) {
        None => Ok(true),
        Some(tree) => {
            let classes = method_classes(alloc, image, info.class, info.meta, tree)?;
            let selectors = selectors_sent(alloc, &tree.body)?;
            Ok(reach.has_all(&classes, &selectors))
        }
    }
}

/// Whether what each class demands is reached.
fn are_classes_closed(image: &Image, reach: &Reach) -> bool
    requires { IsOrderly image.now }
    ensures { result ≡ list_all (class_closed image.now reach.now) image.now.class_order }
{
    for id in image.classes() {
        if !is_class_closed(image, reach, *id) {
            return false;
        }
    }
    true
}

/// Whether what the do-it of a number demands is reached.
fn is_number_closed<L: Ledger>(
    alloc: Global,
    image: &Image,
    reach: &Reach,
    number: usize,
    steps: &mut Steps<L>,
) -> Result<bool, Memory>
    requires { IsOrderly image.now }
    ensures { IfOk result (λ is. is ≡ option_map_or (doit_closed image.now reach.now) (slice_get image.now.doits number) true) }
{
    match image.open_doit(number, steps) {
        None => Ok(true),
        Some(body) => is_doit_closed(alloc, image, reach, body),
    }
}

/// Whether what each do-it of the image demands is reached.
fn are_doits_closed<L: Ledger>(
    alloc: Global,
    image: &Image,
    reach: &Reach,
    steps: &mut Steps<L>,
) -> Result<bool, Memory>
    requires { IsOrderly image.now }
    ensures { IfOk result (λ are. are ≡ list_all (doit_closed image.now reach.now) image.now.doits) }
{
    for number in 0..image.doits() {
        if !is_number_closed(alloc, image, reach, number, steps)? {
            return Ok(false);
        }
    }
    Ok(true)
}

/// Whether what each method demands is reached.
fn are_methods_closed<L: Ledger>(
    alloc: Global,
    image: &Image,
    reach: &Reach,
    steps: &mut Steps<L>,
) -> Result<bool, Memory>
    requires { IsOrderly image.now }
    ensures { IfOk result (λ are. are ≡ list_all (method_closed image.now reach.now) image.now.method_order) }
{
    for slot in image.methods() {
        if !is_method_closed(alloc, image, reach, *slot, steps)? {
            return Ok(false);
        }
    }
    Ok(true)
}

/// Whether what is reached is closed for the image with an expression as its last do-it: the kernel, the superclasses and the
/// classes of what is reached, the classes that its code means, the selectors that this sends, and each method of such a class
/// and selector are all reached. Opens the body of each do-it and of each method that is reached once. The error is want of
/// memory.
pub fn is_closed<L: Ledger>(
    alloc: Global,
    image: &Image,
    start: &Sequence,
    reach: &Reach,
    steps: &mut Steps<L>,
) -> Result<bool, Memory>
    requires orderly { IsOrderly image.now }
    requires once { HasMethodsOnce image.now }
    ensures { IfOk result (λ is. is ≡ is_closed_with image.now (start_of start.now) reach.now) }
{
    if !are_classes_closed(image, reach) {
        return Ok(false);
    }
    if !is_doit_closed(alloc, image, reach, start)? {
        return Ok(false);
    }
    if !are_doits_closed(alloc, image, reach, steps)? {
        return Ok(false);
    }
    are_methods_closed(alloc, image, reach, steps)
}
