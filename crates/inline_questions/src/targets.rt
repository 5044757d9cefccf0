// Whether a class finds a method of the user, and no class below it has one of its own.
ghost use Rattle.std.specs.Prelude.{◌≡◌, ℕ, Some};
ghost use Rattle.std.specs.List.{list_any};
ghost use Rattle.class_table.specs.Valid.{IsLive, IsOrderly};
ghost use Rattle.class_table.specs.View.{class_name, number_image};
ghost use Rattle.class_questions.specs.LiveClasses.{is_live_that};
ghost use Rattle.command_model.specs.InlineConditions as model;
ghost use Rattle.commands.specs.Views.{asked_by};
ghost use Rattle.inline_questions.specs.Targets.{finds_users, is_rival};

use class_questions::{Sought, stands_above};
use class_table::{ClassId, Image};
use commands::MethodName;
use hierarchy_questions::own_method;
use rb_base::NameId;

/// Whether a message of the selector from the class, on a side of it, finds a method of the user.
fn finds_users(image: &Image, class: ClassId, meta: bool, selector: NameId) -> bool
    ensures { result ≡ finds_users image.now class meta selector }
{
    let Some(slot) = image.lookup(class, meta, selector) else {
        return false;
    };
    match image.method_info(slot) {
        None => false,
        Some(info) => !info.kernel,
    }
}

/// Whether the class in a slot, if it is live, stands below that of the name and has a method of its own.
fn is_rival(image: &Image, id: ClassId, method: &MethodName) -> bool
    requires { IsOrderly image.now }
    ensures { result ≡ is_live_that (is_rival image.now method.now) image.now id }
{
    let Some(rec) = image.class_rec(id) else {
        return false;
    };
    let own = MethodName {
        class: rec.name,
        meta: method.meta,
        selector: method.selector,
    };
    if method.class == rec.name {
        return false;
    }
    if own_method(image, own).is_none() {
        return false;
    }
    stands_above(image, id, &Sought::Class(method.class))
}

/// The same of one of the classes in these slots.
fn has_rival(image: &Image, classes: &[ClassId], method: &MethodName) -> bool
    requires { IsOrderly image.now }
    ensures { result ≡ list_any (is_live_that (is_rival image.now method.now) image.now) classes.now }
{
    for id in classes {
        if is_rival(image, *id, method) {
            return true;
        }
    }
    false
}

/// Whether a message of the selector from the class, on a side of it, finds a method of the user, and no class below the class
/// has one of its own for the selector.
pub fn is_one_target(image: &Image, class: ClassId, meta: bool, selector: NameId) -> bool
    requires orderly { IsOrderly image.now }
    requires live { IsLive image.now.class_order class }
    ensures { (c : ℕ) → class_name image.now.classes class ≡ Some c → result ≡ model.is_one_target (asked_by image.now.names) (number_image image.now) c meta selector }
{
    let Some(rec) = image.class_rec(class) else {
        return false;
    };
    let method = MethodName {
        class: rec.name,
        meta,
        selector,
    };
    finds_users(image, class, meta, selector) && !has_rival(image, image.classes(), &method)
}
