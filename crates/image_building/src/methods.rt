// The methods of an image that is built.
ghost use Rattle.std.specs.Prelude.{◌≡◌, ◌<◌, ◌∷◌, ◌++◌, [], length, map, nat_eq, is_some, true, Some, OnOk};
ghost use Rattle.std.specs.List.{AllByRecursion};
ghost use Rattle.std.specs.HashMap.{get};
ghost use Rattle.tree_model.specs.AllNames.{MethodNames};
ghost use Rattle.st_tree.specs.View.{method_of};
ghost use Rattle.image_model.specs.ImageNames.{EntryNames};
ghost use Rattle.image_model.specs.Valid.{HasClass};
ghost use Rattle.class_table.specs.View.{number_image};
ghost use Rattle.file_model.specs.Hierarchy.{has_class};
ghost use Rattle.image_draft.specs.Entries.{entry_of};
ghost use Rattle.image_draft.specs.MethodSlots.{those_there};
ghost use Rattle.image_building.specs.Built.{IsBuilt};

use class_table::{ClassId, Image, MethodRec};
use image_draft::MethodDraft;
use rb_base::{Memory, NameId};
use std::collections::HashMap;

/// The slot of the class of a name that a table has.
fn slot_of(table: &HashMap<usize, ClassId>, name: NameId) -> ClassId
    requires { is_some (get nat_eq table.now name) ≡ true }
    ensures { Some result ≡ get nat_eq table.now name }
{
    table.get(&name.0).copied().unwrap()
}

/// Adds a method of a class that is there.
fn add_method(
    image: &mut Image,
    table: &HashMap<usize, ClassId>,
    method: MethodDraft,
) -> Result<(), Memory>
    requires built { IsBuilt table.now image.old }
    requires known { MethodNames (λ n. n < length image.old.names) (method_of method.tree) }
    requires class_there { has_class nat_eq (number_image image.old).classes method.class ≡ true }
    ensures method { OnOk result ((number_image image.new).methods ≡ (number_image image.old).methods ++ entry_of method ∷ []) }
    ensures rest { OnOk result (image.new ≡ record image.old { methods = image.new.methods; method_order = image.new.method_order }) }
    ensures built { OnOk result (IsBuilt table.now image.new) }
{
    let rec = MethodRec {
        class: slot_of(table, method.class),
        meta: method.meta,
        protocol: method.protocol,
        source: method.source,
        tree: method.tree,
        kernel: method.kernel,
    };
    match image.add_method(rec) {
        Err(_) => Err(Memory),
        Ok(_) => Ok(()),
    }
}

/// Adds methods of classes that are there to an image that has none: those of the slots that are not empty, in order.
pub fn add_methods(
    image: &mut Image,
    table: &HashMap<usize, ClassId>,
    methods: Vec<Option<MethodDraft>>,
) -> Result<(), Memory>
    requires built { IsBuilt table.now image.old }
    requires no_methods { image.old.method_order ≡ [] }
    requires known { AllByRecursion (EntryNames (λ n. n < length image.old.names)) (map entry_of (those_there methods.items)) }
    requires classes_there { AllByRecursion (HasClass (number_image image.old).classes) (map entry_of (those_there methods.items)) }
    ensures methods { OnOk result ((number_image image.new).methods ≡ map entry_of (those_there methods.items)) }
    ensures rest { OnOk result (image.new ≡ record image.old { methods = image.new.methods; method_order = image.new.method_order }) }
    ensures built { OnOk result (IsBuilt table.now image.new) }
{
    for slot in methods {
        if let Some(method) = slot {
            add_method(image, table, method)?;
        }
    }
    Ok(())
}
