// The classes next to a class, and its variables.
ghost use Rattle.std.specs.Prelude.{◌≡◌, nat_eq};
ghost use Rattle.class_table.specs.Valid.{IsOrderly};
ghost use Rattle.class_table.specs.View.{number_image};
ghost use Rattle.command_model.specs.Hierarchy as hierarchy;
ghost use Rattle.command_model.specs.ClassConditions as conditions;
ghost use Rattle.command_model.specs.VariableConditions as variables;
ghost use Rattle.class_questions.specs.LiveClasses.{is_live_that};
ghost use Rattle.hierarchy_questions.specs.Parents.{parent_in};

use class_questions::{has_variable, is_class, is_user_class};
use class_table::{ClassId, Image};
use name_meanings::VariableKind;
use rb_base::NameId;

/// The name of the superclass of the class in a slot, if the slot is live and the class has one.
fn parent_of(image: &Image, id: ClassId) -> Option<NameId>
    requires { IsOrderly image.now }
    ensures { result ≡ parent_in image.now id }
{
    Some(image.class_rec(image.chain_at(id, 1)?)?.name)
}

/// The name of the superclass of the class of a name; `None` where there is no such class, or it has none.
pub fn superclass_of(image: &Image, class: NameId) -> Option<NameId>
    requires { IsOrderly image.now }
    ensures { result ≡ hierarchy.superclass_name nat_eq (number_image image.now) class }
{
    parent_of(image, image.class_named(class)?)
}

/// Whether the class in a slot, if it is live, is a direct subclass of that of the name.
pub(crate) fn is_child(image: &Image, id: ClassId, class: NameId) -> bool
    requires { IsOrderly image.now }
    ensures { result ≡ is_live_that (hierarchy.is_child nat_eq class) image.now id }
{
    match parent_of(image, id) {
        None => false,
        Some(parent) => class == parent,
    }
}

/// Whether there is a class of the name, and no direct subclass of it.
pub fn has_no_subclasses(image: &Image, class: NameId) -> bool
    requires { IsOrderly image.now }
    ensures { result ≡ conditions.has_no_subclasses nat_eq (number_image image.now) class }
{
    is_class(image, class) && !image.classes().iter().any(|id| is_child(image, *id, class))
}

/// Whether the class of the name has a superclass, and that is one of the user.
pub fn has_user_parent(image: &Image, class: NameId) -> bool
    requires { IsOrderly image.now }
    ensures { result ≡ conditions.has_user_parent nat_eq (number_image image.now) class }
{
    match superclass_of(image, class) {
        None => false,
        Some(parent) => is_user_class(image, parent),
    }
}

/// Whether the class of the name is one of the user, and a direct subclass of the superclass.
pub fn is_user_child(image: &Image, class: NameId, superclass: NameId) -> bool
    requires { IsOrderly image.now }
    ensures { result ≡ conditions.is_user_child nat_eq (number_image image.now) class superclass }
{
    match superclass_of(image, class) {
        None => false,
        Some(parent) => superclass == parent && is_user_class(image, class),
    }
}

/// Whether there is a class of the name, and it itself defines no variable of any kind by the other name.
pub fn lacks_variable(image: &Image, class: NameId, variable: NameId) -> bool
    ensures { result ≡ variables.lacks_variable nat_eq (number_image image.now) class variable }
{
    is_class(image, class)
        && !(has_variable(image, VariableKind::Instance, class, variable)
            || has_variable(image, VariableKind::Shared, class, variable)
            || has_variable(image, VariableKind::ClassSide, class, variable))
}
