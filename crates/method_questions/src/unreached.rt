// Whether a method may come, go up or go down without a message finding another method.
ghost use Rattle.std.specs.Prelude.{◌≡◌, ◌&&◌, true, is_some, nat_eq, IfOk};
ghost use Rattle.std.specs.List.{list_any};
ghost use Rattle.std.specs.Option.{ForSome};
ghost use Rattle.st_tree.specs.View.{method_of};
ghost use Rattle.class_table.specs.Valid.{IsLive, IsOrderly};
ghost use Rattle.class_table.specs.View.{number_image};
ghost use Rattle.command_model.specs.Commands as commands;
ghost use Rattle.command_model.specs.Conditions.{Unreached};
ghost use Rattle.command_model.specs.Hierarchy.{is_class, superclass_name};
ghost use Rattle.command_model.specs.Holds.{holds};
ghost use Rattle.command_model.specs.MethodConditions.{implements};
ghost use Rattle.command_model.specs.MethodEffects.{method_added, method_pushed_down, method_pushed_up};
ghost use Rattle.commands.specs.Views.{asked_by};
ghost use Rattle.reference_index.specs.Mentioned.{IsIndexOf};
ghost use Rattle.method_questions.specs.Found.{opened_at, are_same};
ghost use Rattle.method_questions.specs.Moves.{AreOwners, IsLiveAfter, after_entry, finds_another};
ghost use Rattle.method_questions.specs.Unreached.{LeadsTo, is_one_reached, is_unreached, user_slot};

use crate::found::{Found, named_slot, opened, own_slot};
use crate::moves::{After, Moved, Way, comes_first, found_after, is_concerned, is_covered, owners};
use crate::reached::is_reached;
use crate::removable::{are_same, is_sent_nowhere, superclass_slot};
use crate::same::is_same_method;
use class_table::{ClassId, Image, MethodSlot};
use commands::{MethodName, NewMethod};
use rb_base::{Memory, NameId, Steps};
use reference_index::Index;
use std::alloc::Global;
use std::sync::ledger::Ledger;

/// Whether the method in a slot is the same as one that is found afterwards.
fn is_same_after<L: Ledger>(
    alloc: Global,
    image: &Image,
    moved: &Moved<'_>,
    slot: MethodSlot,
    after: &After,
    steps: &mut Steps<L>,
) -> Result<bool, Memory>
    requires orderly { IsOrderly image.now }
    requires slot { is_some (opened_at image.now slot) ≡ true }
    requires after { IsLiveAfter image.now after.now }
    ensures { IfOk result (λ is. is ≡ are_same image.now (opened_at image.now slot) (after_entry image.now moved.now after.now)) }
{
    match *after {
        After::There(other) => {
            if other == slot {
                return Ok(true);
            }
            are_same(alloc, image, slot, other, steps)
        }
        After::Comes(class) => match opened(image, slot, steps) {
            None => Ok(false),
            Some(found) => {
                let comes = Found {
                    class,
                    meta: moved.method.meta,
                    tree: moved.method.tree,
                };
                is_same_method(alloc, image, &found, &comes)
            }
        },
    }
}

/// Whether the class finds another method afterwards, or finds one before or afterwards alone.
fn finds_another<L: Ledger>(
    alloc: Global,
    image: &Image,
    moved: &Moved<'_>,
    class: ClassId,
    steps: &mut Steps<L>,
) -> Result<bool, Memory>
    requires orderly { IsOrderly image.now }
    requires live { IsLive image.now.class_order class }
    ensures { IfOk result (λ is. is ≡ finds_another image.now moved.now class) }
{
    let after = found_after(image, moved, class);
    match image.lookup(class, moved.method.meta, moved.selector) {
        None => Ok(after.is_some()),
        Some(slot) => match after {
            None => Ok(true),
            Some(after) => Ok(!is_same_after(alloc, image, moved, slot, &after, steps)?),
        },
    }
}

/// Whether the class in a slot, if it is live, finds another method afterwards and is reached. Methods are looked up last: this
/// takes long where tables are not made, and most classes are told apart without it.
#[tactic(auto, unfolding(crate::specs::Unreached::is_one_reached))]
pub fn is_one_reached<L: Ledger>(
    alloc: Global,
    image: &Image,
    index: &Index,
    moved: &Moved<'_>,
    owners: &[ClassId],
    class: ClassId,
    steps: &mut Steps<L>,
) -> Result<bool, Memory>
    requires orderly { IsOrderly image.now }
    requires index { IsIndexOf image.now index.now }
    requires owners { AreOwners image.now moved.now owners.now }
    ensures { IfOk result (λ is. is ≡ is_one_reached image.now moved.now class) }
{
    let Some(rec) = image.class_rec(class) else {
        return Ok(false);
    };
    if !is_concerned(image, moved, class) {
        return Ok(false);
    }
    if is_covered(image, moved, owners, class) {
        return Ok(false);
    }
    if !is_reached(alloc, image, index, rec.name, moved.selector, steps)? {
        return Ok(false);
    }
    finds_another(alloc, image, moved, class, steps)
}

/// Whether one of the classes does and is.
fn is_any_reached<L: Ledger>(
    alloc: Global,
    image: &Image,
    index: &Index,
    moved: &Moved<'_>,
    owners: &[ClassId],
    classes: &[ClassId],
    steps: &mut Steps<L>,
) -> Result<bool, Memory>
    requires orderly { IsOrderly image.now }
    requires index { IsIndexOf image.now index.now }
    requires owners { AreOwners image.now moved.now owners.now }
    ensures { IfOk result (λ is. is ≡ list_any (is_one_reached image.now moved.now) classes.now) }
{
    for class in classes {
        if is_one_reached(alloc, image, index, moved, owners, *class, steps)? {
            return Ok(true);
        }
    }
    Ok(false)
}

/// Whether the selector is sent nowhere, or no class that finds another method afterwards is reached.
fn is_unreached<L: Ledger>(
    alloc: Global,
    image: &Image,
    index: &Index,
    moved: &Moved<'_>,
    steps: &mut Steps<L>,
) -> Result<bool, Memory>
    requires orderly { IsOrderly image.now }
    requires index { IsIndexOf image.now index.now }
    ensures { IfOk result (λ is. is ≡ is_unreached image.now moved.now) }
{
    if is_sent_nowhere(alloc, image, index, moved.selector, steps)? {
        return Ok(true);
    }
    let places = index.listed(moved.selector);
    let owners = owners(alloc, image, places, moved.method.meta, moved.selector)?;
    let classes = image.classes();
    let own = owners.as_slice();
    let reached = is_any_reached(alloc, image, index, moved, own, classes, steps)?;
    Ok(!reached)
}

/// The slot of the method of these names, if it is one of the user.
fn user_slot(image: &Image, class: NameId, meta: bool, selector: NameId) -> Option<MethodSlot>
    ensures { result ≡ user_slot image.now class meta selector }
{
    let slot = named_slot(image, class, meta, selector)?;
    match image.method_info(slot) {
        None => None,
        Some(info) => { if info.kernel { None } else { Some(slot) } }
    }
}

/// The method of these names once it goes up to the class above its class, if it is one of the user and there is such a class.
/// Counts at most one step.
pub fn moved_up<'a, L: Ledger>(
    image: &'a Image,
    method: MethodName,
    steps: &mut Steps<L>,
) -> Option<Moved<'a>>
    requires { IsOrderly image.now }
    ensures there { is_some result ≡ (implements nat_eq (number_image image.now) method.class method.meta method.selector && is_some (superclass_name nat_eq (number_image image.now) method.class)) }
    ensures moved { ForSome result (λ moved. LeadsTo image.now moved (method_pushed_up nat_eq method.class method.meta method.selector (number_image image.now)) method.meta method.selector) }
{
    let MethodName {
        class,
        meta,
        selector,
    } = method;
    let Some(slot) = user_slot(image, class, meta, selector) else {
        return None;
    };
    let Some(above) = superclass_slot(image, class) else {
        return None;
    };
    let first = comes_first(image, slot, own_slot(image, above, meta, selector));
    let Some(method) = opened(image, slot, steps) else {
        return None;
    };
    Some(Moved {
        method,
        selector,
        way: Way::Up { above, first },
    })
}

/// The method that comes, if there is its class.
pub fn moved_new<'a>(image: &'a Image, new: &'a NewMethod) -> Option<Moved<'a>>
    requires { IsOrderly image.now }
    ensures there { is_some result ≡ is_class nat_eq (number_image image.now) new.now.class }
    ensures moved { ForSome result (λ moved. LeadsTo image.now moved (method_added new.now.class new.now.meta new.now.protocol new.now.source (method_of new.now.tree) (number_image image.now)) new.now.meta new.now.tree.selector) }
{
    let Some(class) = image.class_named(new.class) else {
        return None;
    };
    let method = Found {
        class,
        meta: new.meta,
        tree: &new.tree,
    };
    Some(Moved {
        method,
        selector: new.tree.selector,
        way: Way::New,
    })
}

/// The method of these names once it goes down to the direct subclasses of its class that have none themselves, if it is one
/// of the user. Counts at most one step.
pub fn moved_down<'a, L: Ledger>(
    image: &'a Image,
    method: MethodName,
    steps: &mut Steps<L>,
) -> Option<Moved<'a>>
    requires { IsOrderly image.now }
    ensures there { is_some result ≡ implements nat_eq (number_image image.now) method.class method.meta method.selector }
    ensures moved { ForSome result (λ moved. LeadsTo image.now moved (method_pushed_down nat_eq method.class method.meta method.selector (number_image image.now)) method.meta method.selector) }
{
    let MethodName {
        class,
        meta,
        selector,
    } = method;
    let Some(slot) = user_slot(image, class, meta, selector) else {
        return None;
    };
    let Some(method) = opened(image, slot, steps) else {
        return None;
    };
    Some(Moved {
        method,
        selector,
        way: Way::Down,
    })
}

/// Whether the user has the method and there is a class above its class, and the method may go up to that without a message
/// finding another method: its selector is sent nowhere, or no class that finds another method for it then is reached. Want of
/// memory, if there is not enough of it to look.
pub fn is_unreached_up<L: Ledger>(
    alloc: Global,
    image: &Image,
    index: &Index,
    method: MethodName,
    steps: &mut Steps<L>,
) -> Result<bool, Memory>
    requires orderly { IsOrderly image.now }
    requires index { IsIndexOf image.now index.now }
    ensures { IfOk result (λ is. is ≡ holds (asked_by image.now.names) (number_image image.now) (commands.PushUpMethod method.class method.meta method.selector) (Unreached method.selector)) }
{
    match moved_up(image, method, steps) {
        None => Ok(false),
        Some(moved) => is_unreached(alloc, image, index, &moved, steps),
    }
}

/// Whether there is the class of the method, and the method may come without a message finding another method: its selector
/// is sent nowhere, or no class that finds another method for it then is reached. Want of memory, if there is not enough of it
/// to look.
pub fn is_unreached_new<L: Ledger>(
    alloc: Global,
    image: &Image,
    index: &Index,
    new: &NewMethod,
    steps: &mut Steps<L>,
) -> Result<bool, Memory>
    requires orderly { IsOrderly image.now }
    requires index { IsIndexOf image.now index.now }
    ensures { IfOk result (λ is. is ≡ holds (asked_by image.now.names) (number_image image.now) (commands.AddMethod new.now.class new.now.meta new.now.protocol new.now.source (method_of new.now.tree)) (Unreached new.now.tree.selector)) }
{
    match moved_new(image, new) {
        None => Ok(false),
        Some(moved) => is_unreached(alloc, image, index, &moved, steps),
    }
}

/// Whether the user has the method, and it may go down to the direct subclasses of its class that have none themselves without
/// a message finding another method: its selector is sent nowhere, or no class that finds another method for it then is reached.
/// Want of memory, if there is not enough of it to look.
pub fn is_unreached_down<L: Ledger>(
    alloc: Global,
    image: &Image,
    index: &Index,
    method: MethodName,
    steps: &mut Steps<L>,
) -> Result<bool, Memory>
    requires orderly { IsOrderly image.now }
    requires index { IsIndexOf image.now index.now }
    ensures { IfOk result (λ is. is ≡ holds (asked_by image.now.names) (number_image image.now) (commands.PushDownMethod method.class method.meta method.selector) (Unreached method.selector)) }
{
    match moved_down(image, method, steps) {
        None => Ok(false),
        Some(moved) => is_unreached(alloc, image, index, &moved, steps),
    }
}
