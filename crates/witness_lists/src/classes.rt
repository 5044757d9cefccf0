// Walks over the classes of an image.
ghost use Rattle.std.specs.Prelude.{◌≡◌, ◌++◌, ◌||◌, filter, map, nat_eq, OnOk};
ghost use Rattle.std.specs.List.{list_any};
ghost use Rattle.class_table.specs.Valid.{IsOrderly};
ghost use Rattle.class_table.specs.View.{number_image};
ghost use Rattle.class_questions.specs.LiveClasses.{is_live_that};
ghost use Rattle.hierarchy_questions.specs.Parents.{parent_in};
ghost use Rattle.refusal_witnesses.specs.Witnesses.{a_class_of};
ghost use Rattle.witness_lists.specs.Classes.{class_found, is_sought};
ghost use Rattle.witness_lists.specs.Views.{shown};

use crate::witness::{Witness, push_if};
use class_table::{ClassId, ClassRec, Image};
use name_meanings::is_among;
use rb_base::{Memory, NameId};

/// Which classes are sought.
#[derive(Clone, Copy, Debug)]
pub enum ClassTest {
    /// The class that has the name, and those with a variable of it.
    Named(NameId),
    /// The direct subclasses of the class of the name.
    Child(NameId),
}

/// Whether the class itself defines a variable of any kind by the name.
pub fn defines_any(rec: &ClassRec, variable: NameId) -> bool
    ensures { result ≡ (list_any (nat_eq variable) rec.now.instance || (list_any (nat_eq variable) rec.now.shared || list_any (nat_eq variable) rec.now.class_side)) }
{
    is_among(rec.instance.as_slice(), variable)
        || (is_among(rec.shared.as_slice(), variable)
            || is_among(rec.class_side.as_slice(), variable))
}

/// Whether the class or one of its variables has the name.
fn is_named(rec: &ClassRec, name: NameId) -> bool
    ensures { result ≡ (nat_eq name rec.now.name || (list_any (nat_eq name) rec.now.instance || (list_any (nat_eq name) rec.now.shared || list_any (nat_eq name) rec.now.class_side))) }
{
    name == rec.name || defines_any(rec, name)
}

/// The name of the superclass of the class in a slot, if the slot is live and the class has one.
pub fn parent_of(image: &Image, id: ClassId) -> Option<NameId>
    requires { IsOrderly image.now }
    ensures { result ≡ parent_in image.now id }
{
    Some(image.class_rec(image.chain_at(id, 1)?)?.name)
}

/// Whether the class in a slot, if the slot is live, is sought.
fn is_found(image: &Image, test: &ClassTest, id: ClassId) -> bool
    requires { IsOrderly image.now }
    ensures { result ≡ is_live_that (is_sought test.now) image.now id }
{
    match *test {
        ClassTest::Named(name) => match image.class_rec(id) {
            None => false,
            Some(rec) => is_named(rec, name),
        },
        ClassTest::Child(class) => match parent_of(image, id) {
            None => false,
            Some(parent) => class == parent,
        },
    }
}

/// Appends the class in a slot, if the slot is live and the class is sought.
fn push_class(
    image: &Image,
    test: &ClassTest,
    id: ClassId,
    found: &mut Vec<Witness>,
) -> Result<(), Memory>
    requires { IsOrderly image.now }
    ensures { OnOk result (shown image.now found.new.items ≡ shown image.now found.old.items ++ class_found (is_sought test.now) image.now id) }
{
    match image.class_rec(id) {
        None => Ok(()),
        Some(rec) => push_if(is_found(image, test, id), Witness::Class(rec.name), found),
    }
}

/// Appends the classes that are sought, in their order.
pub fn classes_that(image: &Image, test: &ClassTest, found: &mut Vec<Witness>) -> Result<(), Memory>
    requires { IsOrderly image.now }
    ensures { OnOk result (shown image.now found.new.items ≡ shown image.now found.old.items ++ map a_class_of (filter (is_sought test.now) (number_image image.now).classes)) }
{
    for id in image.classes() {
        push_class(image, test, *id, found)?;
    }
    Ok(())
}
