// The witnesses of the condition that a class finds one method of the user.
ghost use Rattle.std.specs.Prelude.{◌≡◌, ◌++◌, [], flat_map, Some, OnOk};
ghost use Rattle.std.specs.Option.{option_map_or};
ghost use Rattle.image_model.specs.Image.{EntryOf};
ghost use Rattle.image_model.specs.Lookup.{lookup};
ghost use Rattle.image_model.specs.Words.{number_words};
ghost use Rattle.class_table.specs.Valid.{IsOrderly};
ghost use Rattle.class_table.specs.View.{number_image};
ghost use Rattle.commands.specs.Views.{asked_by};
ghost use Rattle.refusal_witnesses.specs.InlineWitnesses.{other_targets};
ghost use Rattle.refusal_witnesses.specs.Witnesses.{a_method, where_true};
ghost use Rattle.witness_lists.specs.Views.{shown};
ghost use Rattle.use_witnesses.specs.Targets.{found_slot, rival, rival_at};

use class_questions::{Sought, stands_above};
use class_table::{ClassId, Image, MethodSlot};
use commands::MethodName;
use method_questions::object_slot;
use method_witnesses::method_there;
use rb_base::Memory;
use witness_lists::{Owner, Witness, push_if};

/// The slot of the method that the class finds, if it finds one. A class that is not there finds what classes understand as
/// objects, on the class side.
fn found_slot(image: &Image, method: &MethodName) -> Option<MethodSlot>
    ensures { result ≡ found_slot image.now method.now.class method.now.meta method.now.selector }
{
    match image.class_named(method.class) {
        Some(class) => image.lookup(class, method.meta, method.selector),
        None if method.meta => object_slot(image, method.selector),
        None => None,
    }
}

/// Appends the method that the class finds, if it is one of the kernel.
fn kernel_target(image: &Image, method: &MethodName, found: &mut Vec<Witness>) -> Result<(), Memory>
    requires { IsOrderly image.now }
    ensures { OnOk result (shown image.now found.new.items ≡ shown image.now found.old.items ++ option_map_or (λ (m : EntryOf _). where_true m.kernel (a_method m)) (lookup (number_words image.now.names) (number_image image.now) (Some method.now.class) method.now.meta method.now.selector) []) }
{
    let Some(slot) = found_slot(image, method) else {
        return Ok(());
    };
    match image.method_info(slot) {
        None => Ok(()),
        Some(info) => push_if(info.kernel, Witness::Whole(Owner::Method(slot)), found),
    }
}

/// Appends the method that the class of a slot itself has, if the slot is live and the class stands below that of the method.
fn rival_at(
    image: &Image,
    method: &MethodName,
    class: ClassId,
    found: &mut Vec<Witness>,
) -> Result<(), Memory>
    requires { IsOrderly image.now }
    ensures { OnOk result (shown image.now found.new.items ≡ shown image.now found.old.items ++ rival_at image.now method.now class) }
{
    let Some(rec) = image.class_rec(class) else {
        return Ok(());
    };
    if method.class == rec.name {
        return Ok(());
    }
    if !stands_above(image, class, &Sought::Class(method.class)) {
        return Ok(());
    }
    let own = MethodName {
        class: rec.name,
        meta: method.meta,
        selector: method.selector,
    };
    method_there(image, own, found)
}

/// Appends the methods that classes below the class have themselves.
fn rivals(image: &Image, method: &MethodName, found: &mut Vec<Witness>) -> Result<(), Memory>
    requires { IsOrderly image.now }
    ensures { OnOk result (shown image.now found.new.items ≡ shown image.now found.old.items ++ flat_map (rival image.now method.now) (number_image image.now).classes) }
{
    for class in image.classes() {
        rival_at(image, method, *class, found)?;
    }
    Ok(())
}

/// Appends the method that the class finds, if it is one of the kernel, and the methods that classes below it have themselves.
pub fn other_targets(
    image: &Image,
    method: MethodName,
    found: &mut Vec<Witness>,
) -> Result<(), Memory>
    requires { IsOrderly image.now }
    ensures { OnOk result (shown image.now found.new.items ≡ shown image.now found.old.items ++ other_targets (asked_by image.now.names) (number_image image.now) method.class method.meta method.selector) }
{
    kernel_target(image, &method, found)?;
    rivals(image, &method, found)
}
