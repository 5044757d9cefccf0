// The records of classes.
ghost use Rattle.std.specs.Prelude.{◌≡◌, ◌||◌, nat_eq, option_map, option_copied, is_some};
ghost use Rattle.std.specs.List.{list_any};
ghost use Rattle.image_model.specs.Chain.{class_named};
ghost use Rattle.class_table.specs.View.{class_of, number_image};
ghost use Rattle.name_meanings.specs.Meanings.{kind_of};
ghost use Rattle.rename_model.specs.Conditions as conditions;
ghost use Rattle.rename_model.specs.NamesThere.{is_named_by_class};
ghost use Rattle.class_questions.specs.LiveClasses.{is_live_that};

use class_table::{ClassId, ClassRec, Image};
use name_meanings::{VariableKind, defines, is_among};
use rb_base::NameId;

/// The class of the name, if there is one.
fn class_of_name(image: &Image, name: NameId) -> Option<&ClassRec>
    ensures { option_map (class_of image.now.classes) (option_copied result) ≡ class_named nat_eq (number_image image.now).classes name }
{
    image.class_rec(image.class_named(name)?)
}

/// Whether there is a class of the name.
pub fn is_class(image: &Image, name: NameId) -> bool
    ensures { result ≡ is_some (class_named nat_eq (number_image image.now).classes name) }
{
    class_of_name(image, name).is_some()
}

/// Whether the name is that of a class of the user.
pub fn is_user_class(image: &Image, name: NameId) -> bool
    ensures { result ≡ conditions.is_user_class nat_eq (number_image image.now) name }
{
    match class_of_name(image, name) {
        None => false,
        Some(rec) => !rec.kernel,
    }
}

/// Whether the class of the name itself defines the variable of the kind.
pub fn has_variable(image: &Image, kind: VariableKind, class: NameId, variable: NameId) -> bool
    ensures { result ≡ conditions.has_variable nat_eq (number_image image.now) (kind_of kind) class variable }
{
    match class_of_name(image, class) {
        None => false,
        Some(rec) => defines(rec, kind, variable),
    }
}

/// Whether the class itself defines a variable of any kind by the name.
pub(crate) fn defines_any(rec: &ClassRec, variable: NameId) -> bool
    ensures { result ≡ (list_any (nat_eq variable) rec.now.instance || (list_any (nat_eq variable) rec.now.shared || list_any (nat_eq variable) rec.now.class_side)) }
{
    is_among(rec.instance.as_slice(), variable)
        || (is_among(rec.shared.as_slice(), variable)
            || is_among(rec.class_side.as_slice(), variable))
}

/// Whether the class or one of its variables has the name.
fn is_named(rec: &ClassRec, name: NameId) -> bool
    ensures { result ≡ (nat_eq name rec.now.name || (list_any (nat_eq name) rec.now.instance || (list_any (nat_eq name) rec.now.shared || list_any (nat_eq name) rec.now.class_side))) }
{
    name == rec.name || defines_any(rec, name)
}

/// The same of the class in a slot, if the slot is live.
fn is_named_in(image: &Image, class: ClassId, name: NameId) -> bool
    ensures { result ≡ is_live_that (is_named_by_class nat_eq name) image.now class }
{
    match image.class_rec(class) {
        None => false,
        Some(rec) => is_named(rec, name),
    }
}

/// The same of classes in these slots.
fn is_named_in_one(image: &Image, classes: &[ClassId], name: NameId) -> bool
    ensures { result ≡ list_any (is_live_that (is_named_by_class nat_eq name) image.now) classes.now }
{
    for class in classes {
        if is_named_in(image, *class, name) {
            return true;
        }
    }
    false
}

/// Whether a class or one of its variables has the name.
pub fn is_any_named(image: &Image, name: NameId) -> bool
    ensures { result ≡ list_any (is_named_by_class nat_eq name) (number_image image.now).classes }
{
    is_named_in_one(image, image.classes(), name)
}
