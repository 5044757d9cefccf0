// Where two images differ.
ghost use Rattle.std.specs.Prelude.{◌≡◌, ◌++◌, map, slice_get, Some, IfOk};
ghost use Rattle.std.specs.List.{filter_map};
ghost use Rattle.class_table.specs.View.{image_of};
ghost use Rattle.class_table.specs.Valid.{IsOrderly};
ghost use Rattle.file_model.specs.Written.{user_classes, user_methods};
ghost use Rattle.change_model.specs.Differs.{differs};
ghost use Rattle.change_file.specs.declared.differences.Member.TheVariants.{Earlier, Later};
ghost use Rattle.change_file.specs.Members.{class_in, method_in, member_in};
ghost use Rattle.change_file.specs.Shown.{IsToldApart};

use crate::classes::{classes_of, differing_classes};
use crate::doit_edits::has_source;
use crate::keys::lone_places;
use crate::methods::{differing_methods, methods_of};
use class_table::{ClassId, Image, MethodSlot};
use rb_base::Memory;
use std::alloc::Global;

/// The slot of a class or of a method, and of which of two images it is.
#[derive(Clone, Copy, Debug, PartialEq, Eq)]
pub enum Member<T> {
    Earlier(T),
    Later(T),
}

/// Where two images differ.
#[derive(Drop)]
pub struct Differences {
    /// The classes of the user that differ: those of the earlier image, in its order, and then those that the later one alone has.
    pub classes: Vec<Member<ClassId>>,
    /// The methods of the user that differ, in the same way.
    pub methods: Vec<Member<MethodSlot>>,
    /// The numbers, from 1, of the do-its of the later image that differ.
    pub doits: Vec<usize>,
}

/// The slots of the classes of the user in an image, in order.
fn user_class_ids(alloc: Global, image: &Image) -> Result<Vec<ClassId>, Memory>
    requires { IsOrderly image.now }
    ensures { IfOk result (λ ids. map (class_in image.now) ids.items ≡ map Some (user_classes (image_of image.now))) }
{
    let mut ids = Vec::new(alloc);
    for id in image.classes() {
        if let Some(rec) = image.class_rec(*id) {
            if !rec.kernel {
                ids.push(*id)?;
            }
        }
    }
    Ok(ids)
}

/// The slots of the methods of the user in an image, in order.
fn user_method_slots(alloc: Global, image: &Image) -> Result<Vec<MethodSlot>, Memory>
    requires { IsOrderly image.now }
    ensures { IfOk result (λ slots. map (method_in image.now) slots.items ≡ map Some (user_methods (image_of image.now))) }
{
    let mut slots = Vec::new(alloc);
    for slot in image.methods() {
        if let Some(info) = image.method_info(*slot) {
            if !info.kernel {
                slots.push(*slot)?;
            }
        }
    }
    Ok(slots)
}

/// The slots at these places of the earlier image, and then those at these places of the later one.
fn members<T: Copy + Drop>(
    alloc: Global,
    earlier: &[T],
    differing: &[usize],
    later: &[T],
    lone: &[usize],
) -> Result<Vec<Member<T>>, Memory>
    ensures { IfOk result (λ found. found.items ≡ map Earlier (filter_map (slice_get earlier.now) differing.now) ++ map Later (filter_map (slice_get later.now) lone.now)) }
{
    let mut found = Vec::new(alloc);
    for place in differing {
        if let Some(slot) = earlier.get(*place) {
            found.push(Member::Earlier(*slot))?;
        }
    }
    for place in lone {
        if let Some(slot) = later.get(*place) {
            found.push(Member::Later(*slot))?;
        }
    }
    Ok(found)
}

/// The classes of the user that differ.
fn class_differences(
    alloc: Global,
    earlier: &Image,
    later: &Image,
) -> Result<Vec<Member<ClassId>>, Memory>
    requires earlier { IsOrderly earlier.now }
    requires later { IsOrderly later.now }
    requires earlier_apart { IsToldApart (image_of earlier.now) }
    requires later_apart { IsToldApart (image_of later.now) }
    ensures { IfOk result (λ found. map (member_in (class_in earlier.now) (class_in later.now)) found.items ≡ map Some (differs (image_of earlier.now) (image_of later.now)).classes) }
{
    let before = classes_of(alloc, earlier)?;
    let after = classes_of(alloc, later)?;
    let differing = differing_classes(alloc, &before, &after)?;
    let mut places = Vec::new(alloc);
    for class in &differing {
        places.push(class.place - 1)?;
    }
    let lone = lone_places(alloc, &after.names, &before.names)?;
    let ids = user_class_ids(alloc, earlier)?;
    let later_ids = user_class_ids(alloc, later)?;
    members(
        alloc,
        ids.as_slice(),
        places.as_slice(),
        later_ids.as_slice(),
        lone.as_slice(),
    )
}

/// The methods of the user that differ.
fn method_differences(
    alloc: Global,
    earlier: &Image,
    later: &Image,
) -> Result<Vec<Member<MethodSlot>>, Memory>
    requires earlier { IsOrderly earlier.now }
    requires later { IsOrderly later.now }
    requires earlier_apart { IsToldApart (image_of earlier.now) }
    requires later_apart { IsToldApart (image_of later.now) }
    ensures { IfOk result (λ found. map (member_in (method_in earlier.now) (method_in later.now)) found.items ≡ map Some (differs (image_of earlier.now) (image_of later.now)).methods) }
{
    let before = methods_of(alloc, earlier)?;
    let after = methods_of(alloc, later)?;
    let differing = differing_methods(alloc, &before, &after)?;
    let mut places = Vec::new(alloc);
    for method in &differing {
        places.push(method.place - 1)?;
    }
    let lone = lone_places(alloc, &after.keys, &before.keys)?;
    let slots = user_method_slots(alloc, earlier)?;
    let later_slots = user_method_slots(alloc, later)?;
    members(
        alloc,
        slots.as_slice(),
        places.as_slice(),
        later_slots.as_slice(),
        lone.as_slice(),
    )
}

/// The numbers of the do-its that differ.
fn doit_differences(alloc: Global, earlier: &Image, later: &Image) -> Result<Vec<usize>, Memory>
    ensures { IfOk result (λ found. found.items ≡ (differs (image_of earlier.now) (image_of later.now)).doits) }
{
    let mut found = Vec::new(alloc);
    for number in 0..later.doits() {
        if let Some(source) = later.doit_source(number) {
            if !has_source(earlier, number, source) {
                found.push(number + 1)?;
            }
        }
    }
    Ok(found)
}

/// Where two images differ: the slots of the classes and methods of the user that one of them alone has, that are not equal in
/// both, or that stand at another place among those that both have, and the numbers of the do-its that the later one has and the
/// earlier one has not with that number.
pub fn differs(alloc: Global, earlier: &Image, later: &Image) -> Result<Differences, Memory>
    requires earlier { IsOrderly earlier.now }
    requires later { IsOrderly later.now }
    requires earlier_apart { IsToldApart (image_of earlier.now) }
    requires later_apart { IsToldApart (image_of later.now) }
    ensures classes { IfOk result (λ found. map (member_in (class_in earlier.now) (class_in later.now)) found.classes.items ≡ map Some (differs (image_of earlier.now) (image_of later.now)).classes) }
    ensures methods { IfOk result (λ found. map (member_in (method_in earlier.now) (method_in later.now)) found.methods.items ≡ map Some (differs (image_of earlier.now) (image_of later.now)).methods) }
    ensures doits { IfOk result (λ found. found.doits.items ≡ (differs (image_of earlier.now) (image_of later.now)).doits) }
{
    let classes = class_differences(alloc, earlier, later)?;
    let methods = method_differences(alloc, earlier, later)?;
    let doits = doit_differences(alloc, earlier, later)?;
    Ok(Differences {
        classes,
        methods,
        doits,
    })
}
