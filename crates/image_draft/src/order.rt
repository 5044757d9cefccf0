// The order of classes, once one of them is defined again under another superclass.
ghost use Rattle.std.specs.Prelude.{◌≡◌, ◌<◌, ◌≤◌, ◌∷◌, ◌++◌, [], List, ℕ, Some, drop, length, take, true, false, nat_eq, IfSome, OnOk};
ghost use Rattle.std.specs.Option.{option_map_or};
ghost use Rattle.image_model.specs.Image.{ClassOf};
ghost use Rattle.file_model.specs.Hierarchy as hierarchy;
ghost use Rattle.file_laws.specs.Settling as settling;
ghost use Rattle.image_draft.specs.Names.{NamesDiffer};
ghost use Rattle.image_draft.specs.Table.{place_in, stands_first};

use crate::boxed_class::BoxedClass;
use crate::class_list::ClassList;
use rb_base::{Memory, NameId};

/// Whether a class of a name is one of these.
fn stands_in(name: NameId, classes: &ClassList) -> bool
    ensures { result ≡ hierarchy.stands_in nat_eq name classes.now }
{
    classes.place(name).is_some()
}

/// Whether a place stands before another; all that have a place stand before what has none.
fn stands_first(place: Option<usize>, other: Option<usize>) -> bool
    ensures { result ≡ stands_first place other }
{
    match (place, other) {
        (None, _) => false,
        (Some(_), None) => true,
        (Some(first), Some(second)) => first < second,
    }
}

/// Whether the class of one name stands before that of another.
fn comes_first(classes: &ClassList, above: NameId, name: NameId) -> bool
    ensures { result ≡ settling.comes_first nat_eq above name classes.now }
{
    stands_first(classes.place(above), classes.place(name))
}

/// Whether the superclass of a class is one of those that wait.
fn is_held(class: &BoxedClass, waiting: &ClassList) -> bool
    ensures { result ≡ option_map_or (λ s. hierarchy.stands_in nat_eq s waiting.now) class.now.superclass false }
{
    match class.superclass() {
        None => false,
        Some(above) => stands_in(above, waiting),
    }
}

/// Whether a class waits: it is that of a name, or its superclass is one of those that wait.
fn waits(name: NameId, waiting: &ClassList, class: &BoxedClass) -> bool
    ensures { result ≡ settling.waits nat_eq name waiting.now class.now }
{
    class.is_named(name) || is_held(class, waiting)
}

/// Puts a class among those that wait, or behind those that are placed; behind the class of a second name go those that wait.
fn place(
    placed: &mut ClassList,
    waiting: &mut ClassList,
    name: NameId,
    above: NameId,
    class: BoxedClass,
) -> Result<(), Memory>
    ensures { OnOk result ((rest : List (ClassOf ℕ)) → placed.new ++ settling.passed nat_eq name above waiting.new rest ≡ placed.old ++ settling.passed nat_eq name above waiting.old (class ∷ rest)) }
{
    if waits(name, waiting, &class) {
        return waiting.push_boxed(class);
    }
    let is_last = class.is_named(above);
    placed.push_boxed(class)?;
    if is_last {
        waiting.move_behind(placed)?;
    }
    Ok(())
}

/// The place of the class of a name, or the first place where there is none: no class before it waits.
fn first_place(classes: &ClassList, name: NameId) -> usize
    ensures within { result ≤ length classes.now }
    ensures before { (above : ℕ) → take result classes.now ++ settling.passed nat_eq name above [] (drop result classes.now) ≡ settling.passed nat_eq name above [] classes.now }
{
    classes.place(name).unwrap_or(0)
}

/// Puts the class of a name, and those that wait for it, behind the class of a second name.
fn pass(classes: &mut ClassList, name: NameId, above: NameId) -> Result<(), Memory>
    ensures { OnOk result (classes.new ≡ settling.passed nat_eq name above [] classes.old) }
{
    let first = first_place(classes, name);
    let rest = classes.split_off(first)?;
    let mut waiting = classes.with_spare();
    for class in rest {
        place(classes, &mut waiting, name, above, class)?;
    }
    waiting.move_behind(classes)?;
    classes.keep_spare(waiting);
    Ok(())
}

/// The places of the classes of two names, where the first stands before the second.
fn places_of(classes: &ClassList, name: NameId, above: NameId) -> Option<(usize, usize)>
    ensures first { IfSome result (λ places. place_in classes.now name ≡ Some places.0) }
    ensures second { IfSome result (λ places. place_in classes.now above ≡ Some places.1) }
    ensures before { IfSome result (λ places. places.0 < places.1) }
{
    let from = classes.place(name)?;
    let to = classes.place(above)?;
    if to <= from {
        return None;
    }
    Some((from, to))
}

/// The same for a class that is the superclass of none: it goes alone, and no other class waits.
fn pass_alone(classes: &mut ClassList, name: NameId, above: NameId) -> Result<(), Memory>
    requires differ { NamesDiffer classes.old }
    requires childless { hierarchy.has_subclass nat_eq classes.old name ≡ false }
    ensures { OnOk result (classes.new ≡ settling.passed nat_eq name above [] classes.old) }
{
    let Some((from, to)) = places_of(classes, name, above) else {
        return pass(classes, name, above);
    };
    classes.put_back(from, to);
    Ok(())
}

/// Puts the classes in order, once the class of a name is defined again with a superclass or without one, where it may be
/// known that it is the superclass of none.
pub fn put_behind(
    classes: &mut ClassList,
    name: NameId,
    superclass: Option<NameId>,
    childless: bool,
) -> Result<(), Memory>
    requires differ { NamesDiffer classes.old }
    requires childless { childless ≡ true → hierarchy.has_subclass nat_eq classes.old name ≡ false }
    ensures { OnOk result (classes.new ≡ settling.put_behind nat_eq name superclass classes.old) }
{
    let Some(above) = superclass else {
        return Ok(());
    };
    if comes_first(classes, above, name) {
        return Ok(());
    }
    if childless {
        return pass_alone(classes, name, above);
    }
    pass(classes, name, above)
}
