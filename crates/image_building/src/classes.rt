// The classes of an image that is built.
ghost use Rattle.std.specs.Prelude.{◌≡◌, ◌<◌, ◌∷◌, ◌++◌, [], ℕ, length, nat_eq, true, false, if◌then◌else◌, Some, OnOk};
ghost use Rattle.std.specs.List.{AllByRecursion};
ghost use Rattle.std.specs.Option.{ForSome, option_and_then};
ghost use Rattle.std.specs.HashMap.{get};
ghost use Rattle.image_model.specs.ImageNames.{ClassNames};
ghost use Rattle.image_model.specs.Valid.{SuperclassesStandBefore};
ghost use Rattle.class_table.specs.View.{number_image};
ghost use Rattle.file_model.specs.Hierarchy.{has_class};
ghost use Rattle.image_draft.specs.Names.{NamesDiffer};
ghost use Rattle.image_building.specs.Built.{IsBuilt};

use class_table::{ClassId, ClassRec, Image};
use image_draft::ClassDraft;
use rb_base::{Memory, NameId};
use std::collections::HashMap;

/// The slot of the class of a name, if there is a name and such a class.
fn slot_named(table: &HashMap<usize, ClassId>, name: Option<NameId>) -> Option<ClassId>
    ensures { result ≡ option_and_then (get nat_eq table.now) name }
{
    table.get(&name?.0).copied()
}

/// A class with its superclass by slot.
fn class_rec(table: &HashMap<usize, ClassId>, class: ClassDraft) -> ClassRec
    ensures { result ≡ record {
      name = class.name;
      superclass = option_and_then (get nat_eq table.now) class.superclass;
      instance = class.instance;
      shared = class.shared;
      class_side = class.class_side;
      category = class.category;
      comment = class.comment;
      kernel = class.kernel;
    } }
{
    let superclass = slot_named(table, class.superclass);
    ClassRec {
        name: class.name,
        superclass,
        instance: class.instance,
        shared: class.shared,
        class_side: class.class_side,
        category: class.category,
        comment: class.comment,
        kernel: class.kernel,
    }
}

/// Notes the slot of a class under its name.
fn note(table: &mut HashMap<usize, ClassId>, name: NameId, slot: ClassId) -> Result<(), Memory>
    ensures { OnOk result ((other : ℕ) → get nat_eq table.new other ≡ (if nat_eq name other then Some slot else get nat_eq table.old other)) }
{
    table.insert(name.0, slot)?;
    Ok(())
}

/// Adds a class behind those that are there, to an image that has no methods.
fn add_class(
    image: &mut Image,
    table: &mut HashMap<usize, ClassId>,
    class: ClassDraft,
) -> Result<(), Memory>
    requires built { IsBuilt table.old image.old }
    requires no_methods { image.old.method_order ≡ [] }
    requires known { ClassNames (λ n. n < length image.old.names) class }
    requires name_is_new { has_class nat_eq (number_image image.old).classes class.name ≡ false }
    requires superclass_there { ForSome class.superclass (λ n. has_class nat_eq (number_image image.old).classes n ≡ true) }
    ensures class { OnOk result ((number_image image.new).classes ≡ (number_image image.old).classes ++ class ∷ []) }
    ensures rest { OnOk result (image.new ≡ record image.old { classes = image.new.classes; class_order = image.new.class_order }) }
    ensures built { OnOk result (IsBuilt table.new image.new) }
{
    let name = class.name;
    match image.add_class(class_rec(table, class)) {
        Err(_) => Err(Memory),
        Ok(slot) => note(table, name, slot),
    }
}

/// Adds classes, each behind its superclass, to an image that has none.
pub fn add_classes(
    image: &mut Image,
    table: &mut HashMap<usize, ClassId>,
    classes: Vec<ClassDraft>,
) -> Result<(), Memory>
    requires built { IsBuilt table.old image.old }
    requires no_classes { image.old.class_order ≡ [] }
    requires no_methods { image.old.method_order ≡ [] }
    requires known { AllByRecursion (ClassNames (λ n. n < length image.old.names)) classes.items }
    requires names_differ { NamesDiffer classes.items }
    requires superclasses_before { SuperclassesStandBefore classes.items }
    ensures classes { OnOk result ((number_image image.new).classes ≡ classes.items) }
    ensures rest { OnOk result (image.new ≡ record image.old { classes = image.new.classes; class_order = image.new.class_order }) }
    ensures built { OnOk result (IsBuilt table.new image.new) }
{
    for class in classes {
        add_class(image, table, class)?;
    }
    Ok(())
}
