// Chains of classes.
ghost use Rattle.std.specs.Prelude.{◌≡◌, List, Some, nat_eq};
ghost use Rattle.std.specs.List.{list_any};
ghost use Rattle.image_model.specs.Chain.{chain};
ghost use Rattle.class_table.specs.declared.record.ClassRec.{ClassRec};
ghost use Rattle.class_table.specs.Valid.{IsLive, IsOrderly};
ghost use Rattle.class_table.specs.View.{class_name, class_of, number_image};
ghost use Rattle.rename_model.specs.Conditions.{defines};
ghost use Rattle.class_questions.specs.Sought.{is_sought};
ghost use Rattle.class_questions.specs.LiveClasses.{is_live_that, defines_below};

use crate::records::defines_any;
use class_table::{ClassId, ClassRec, Image};
use rb_base::NameId;

/// What is sought along the chain of a class.
#[derive(Clone, Copy, Debug)]
pub enum Sought {
    /// The class of a name.
    Class(NameId),
    /// A class that defines a variable of any kind by the name.
    Variable(NameId),
}

/// Whether the class is what is sought.
fn is_sought(rec: &ClassRec, sought: &Sought) -> bool
    ensures { (classes : List ClassRec) → result ≡ is_sought sought.now (class_of classes rec.now) }
{
    match sought {
        Sought::Class(name) => *name == rec.name,
        Sought::Variable(name) => defines_any(rec, *name),
    }
}

/// Whether what is sought is the class in a live slot, or stands above it.
pub fn stands_above(image: &Image, class: ClassId, sought: &Sought) -> bool
    requires orderly { IsOrderly image.now }
    requires live { IsLive image.now.class_order class }
    ensures { result ≡ list_any (is_sought sought.now) (chain nat_eq (number_image image.now).classes (class_name image.now.classes class)) }
{
    let mut at = Some(class);
    let mut left = image.classes().len();
    while left > 0 {
        let Some(id) = at else {
            return false;
        };
        let Some(rec) = image.class_rec(id) else {
            return false;
        };
        if is_sought(rec, sought) {
            return true;
        }
        at = rec.superclass;
        left -= 1;
    }
    false
}

/// Whether the class in a slot, if it is live, defines the variable and is the class of the name or stands below it.
fn defines_below(image: &Image, id: ClassId, class: NameId, variable: NameId) -> bool
    requires { IsOrderly image.now }
    ensures { result ≡ is_live_that (defines_below image.now class variable) image.now id }
{
    match image.class_rec(id) {
        None => false,
        Some(rec) => defines_any(rec, variable) && stands_above(image, id, &Sought::Class(class)),
    }
}

/// The same of classes in these slots.
fn one_defines_below(image: &Image, classes: &[ClassId], class: NameId, variable: NameId) -> bool
    requires { IsOrderly image.now }
    ensures { result ≡ list_any (is_live_that (defines_below image.now class variable) image.now) classes.now }
{
    for id in classes {
        if defines_below(image, *id, class, variable) {
            return true;
        }
    }
    false
}

/// Whether the class of the name, or a class below it, defines a variable of any kind by a name.
pub fn is_defined_below(image: &Image, class: NameId, variable: NameId) -> bool
    requires { IsOrderly image.now }
    ensures { result ≡ list_any (defines_below image.now class variable) (number_image image.now).classes }
{
    one_defines_below(image, image.classes(), class, variable)
}

/// Whether the class of the name, or a class above it, defines a variable of any kind by a name.
pub fn is_defined_above(image: &Image, class: NameId, variable: NameId) -> bool
    requires { IsOrderly image.now }
    ensures { result ≡ list_any (defines nat_eq variable) (chain nat_eq (number_image image.now).classes (Some class)) }
{
    match image.class_named(class) {
        None => false,
        Some(id) => stands_above(image, id, &Sought::Variable(variable)),
    }
}
