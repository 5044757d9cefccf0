// The direct subclasses of a class of which something holds.
ghost use Rattle.std.specs.Prelude.{◌≡◌, nat_eq, IfOk};
ghost use Rattle.class_table.specs.Valid.{IsOrderly};
ghost use Rattle.class_table.specs.View.{number_image};
ghost use Rattle.command_model.specs.Hierarchy as hierarchy;
ghost use Rattle.command_model.specs.VariableConditions as variables;
ghost use Rattle.hierarchy_questions.specs.Children.{name_that, is_receiver, is_loser};

use crate::classes::is_child;
use crate::methods::own_method;
use class_table::{ClassId, Image};
use commands::MethodName;
use name_meanings::{VariableKind, defines};
use rb_base::{Ids, Memory, NameId};
use std::alloc::Global;

/// The name of the class in a slot, if it is live and a direct subclass that has no method of its own for the selector of the
/// method on its side.
fn receiver(image: &Image, id: ClassId, method: MethodName) -> Option<NameId>
    requires { IsOrderly image.now }
    ensures { result ≡ name_that (is_receiver (number_image image.now) method) image.now id }
{
    let rec = image.class_rec(id)?;
    let own = MethodName {
        class: rec.name,
        ..method
    };
    if is_child(image, id, method.class) && own_method(image, own).is_none() {
        Some(rec.name)
    } else {
        None
    }
}

/// The names of the direct subclasses that have no method of their own for the selector of the method on its side, in the
/// order of the classes.
pub fn receivers(alloc: Global, image: &Image, method: MethodName) -> Result<Ids, Memory>
    requires { IsOrderly image.now }
    ensures { IfOk result (λ found. found ≡ hierarchy.receivers nat_eq (number_image image.now) method.class method.meta method.selector) }
{
    let names = image
        .classes()
        .iter()
        .filter_map(|id| receiver(image, *id, method))
        .collect(alloc)?;
    Ok(Ids::from_vec(names))
}

/// The name of the class in a slot, if it is live and a direct subclass that itself defines the instance variable.
fn loser(image: &Image, id: ClassId, class: NameId, variable: NameId) -> Option<NameId>
    requires { IsOrderly image.now }
    ensures { result ≡ name_that (is_loser class variable) image.now id }
{
    let rec = image.class_rec(id)?;
    if is_child(image, id, class) && defines(rec, VariableKind::Instance, variable) {
        Some(rec.name)
    } else {
        None
    }
}

/// The names of the direct subclasses that themselves define the instance variable, in the order of the classes: they lose
/// it where it goes up.
pub fn losers(alloc: Global, image: &Image, class: NameId, variable: NameId) -> Result<Ids, Memory>
    requires { IsOrderly image.now }
    ensures { IfOk result (λ found. found ≡ variables.losers nat_eq (number_image image.now) class variable) }
{
    let names = image
        .classes()
        .iter()
        .filter_map(|id| loser(image, *id, class, variable))
        .collect(alloc)?;
    Ok(Ids::from_vec(names))
}
