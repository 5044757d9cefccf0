// The witnesses of the conditions of single classes.
ghost use Rattle.std.specs.Prelude.{◌≡◌, ◌++◌, ◌||◌, nat_eq, not, option_copied, option_map, OnOk};
ghost use Rattle.image_model.specs.Chain.{class_named};
ghost use Rattle.class_table.specs.Valid.{IsOrderly};
ghost use Rattle.class_table.specs.View.{class_of, number_image};
ghost use Rattle.refusal_witnesses.specs.ClassWitnesses.{children, kernel_class, kernel_parent, other_parent, own_definer};
ghost use Rattle.witness_lists.specs.Views.{shown};

use class_table::{ClassRec, Image};
use hierarchy_questions::superclass_of;
use rb_base::{Memory, NameId};
use witness_lists::{ClassTest, Witness, classes_that, defines_any, push_if};

/// The class of the name, if there is one.
fn class_of_name(image: &Image, name: NameId) -> Option<&ClassRec>
    ensures { option_map (class_of image.now.classes) (option_copied result) ≡ class_named nat_eq (number_image image.now).classes name }
{
    image.class_rec(image.class_named(name)?)
}

/// Appends the class of the name, if it is one of the kernel.
pub fn kernel_class(image: &Image, class: NameId, found: &mut Vec<Witness>) -> Result<(), Memory>
    ensures { OnOk result (shown image.now found.new.items ≡ shown image.now found.old.items ++ kernel_class nat_eq (number_image image.now) class) }
{
    match class_of_name(image, class) {
        None => Ok(()),
        Some(rec) => push_if(rec.kernel, Witness::Class(rec.name), found),
    }
}

/// Appends the superclass of the class of the name, if it is one of the kernel.
pub fn kernel_parent(image: &Image, class: NameId, found: &mut Vec<Witness>) -> Result<(), Memory>
    requires { IsOrderly image.now }
    ensures { OnOk result (shown image.now found.new.items ≡ shown image.now found.old.items ++ kernel_parent nat_eq (number_image image.now) class) }
{
    match superclass_of(image, class) {
        None => Ok(()),
        Some(parent) => kernel_class(image, parent, found),
    }
}

/// Appends the direct subclasses of the class of the name.
pub fn children(image: &Image, class: NameId, found: &mut Vec<Witness>) -> Result<(), Memory>
    requires { IsOrderly image.now }
    ensures { OnOk result (shown image.now found.new.items ≡ shown image.now found.old.items ++ children nat_eq (number_image image.now) class) }
{
    classes_that(image, &ClassTest::Child(class), found)
}

/// Whether the class is one of the kernel, or its superclass is another one.
fn is_kept_from(rec: &ClassRec, superclass: NameId, parent: NameId) -> bool
    ensures { result ≡ (rec.now.kernel || not (nat_eq superclass parent)) }
{
    rec.kernel || superclass != parent
}

/// Appends the class under which the class of the name stands in place of the other one, or the class itself if it stands
/// under none; also if the class is one of the kernel.
pub fn other_parent(
    image: &Image,
    class: NameId,
    superclass: NameId,
    found: &mut Vec<Witness>,
) -> Result<(), Memory>
    requires { IsOrderly image.now }
    ensures { OnOk result (shown image.now found.new.items ≡ shown image.now found.old.items ++ other_parent nat_eq (number_image image.now) class superclass) }
{
    let Some(rec) = class_of_name(image, class) else {
        return Ok(());
    };
    match superclass_of(image, class) {
        None => found.push(Witness::Class(rec.name))?,
        Some(parent) => {
            let is_other = is_kept_from(rec, superclass, parent);
            push_if(is_other, Witness::Class(parent), found)?;
        }
    }
    Ok(())
}

/// Appends the class of the name, if it itself defines a variable of any kind by the other name.
pub fn own_definer(
    image: &Image,
    class: NameId,
    variable: NameId,
    found: &mut Vec<Witness>,
) -> Result<(), Memory>
    ensures { OnOk result (shown image.now found.new.items ≡ shown image.now found.old.items ++ own_definer nat_eq (number_image image.now) class variable) }
{
    match class_of_name(image, class) {
        None => Ok(()),
        Some(rec) => push_if(defines_any(rec, variable), Witness::Class(rec.name), found),
    }
}
