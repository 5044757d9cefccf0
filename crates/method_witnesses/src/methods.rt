// The witnesses of the conditions of single methods.
ghost use Rattle.std.specs.Prelude.{◌≡◌, ◌++◌, [], nat_eq, OnOk};
ghost use Rattle.std.specs.Option.{option_map_or};
ghost use Rattle.image_model.specs.Words.{number_words};
ghost use Rattle.class_table.specs.Valid.{IsOrderly};
ghost use Rattle.class_table.specs.View.{number_image};
ghost use Rattle.commands.specs.Views.{asked_by};
ghost use Rattle.refusal_witnesses.specs.MethodWitnesses.{kernel_method, method_there, supers};
ghost use Rattle.refusal_witnesses.specs.NameWitnesses as names;
ghost use Rattle.command_model.specs.CodeEffects.{method_at};
ghost use Rattle.witness_lists.specs.Views.{shown};

use class_table::Image;
use commands::MethodName;
use hierarchy_questions::own_method;
use rb_base::{Memory, NameId, Steps};
use std::alloc::Global;
use std::sync::ledger::Ledger;
use witness_lists::{Owner, Sought, Whose, Witness, push_if, slot_witnesses};

/// Appends the method, if it is one of the kernel.
pub fn kernel_method(
    image: &Image,
    method: MethodName,
    found: &mut Vec<Witness>,
) -> Result<(), Memory>
    requires { IsOrderly image.now }
    ensures { OnOk result (shown image.now found.new.items ≡ shown image.now found.old.items ++ kernel_method nat_eq (number_image image.now) method.class method.meta method.selector) }
{
    let Some(slot) = own_method(image, method) else {
        return Ok(());
    };
    match image.method_info(slot) {
        None => Ok(()),
        Some(info) => push_if(info.kernel, Witness::Whole(Owner::Method(slot)), found),
    }
}

/// Appends the method, if the class itself has it.
pub fn method_there(
    image: &Image,
    method: MethodName,
    found: &mut Vec<Witness>,
) -> Result<(), Memory>
    requires { IsOrderly image.now }
    ensures { OnOk result (shown image.now found.new.items ≡ shown image.now found.old.items ++ method_there nat_eq (number_image image.now) method.class method.meta method.selector) }
{
    match own_method(image, method) {
        None => Ok(()),
        Some(slot) => push_if(true, Witness::Whole(Owner::Method(slot)), found),
    }
}

/// Appends the nodes of the method that are `super`.
pub fn supers<L: Ledger>(
    alloc: Global,
    image: &Image,
    method: MethodName,
    found: &mut Vec<Witness>,
    steps: &mut Steps<L>,
) -> Result<(), Memory>
    requires { IsOrderly image.now }
    ensures { OnOk result (shown image.now found.new.items ≡ shown image.now found.old.items ++ supers (number_words image.now.names) (asked_by image.now.names).is_super (number_image image.now) method.class method.meta method.selector) }
{
    match own_method(image, method) {
        None => Ok(()),
        Some(slot) => slot_witnesses(
            alloc,
            image,
            Whose::Everyone,
            &Sought::Super,
            slot,
            found,
            steps,
        ),
    }
}

/// Appends what names the name in the method, if it is one of the user: the method, if it declares the name at its head, and
/// the nodes.
pub fn namings_in_method<L: Ledger>(
    alloc: Global,
    image: &Image,
    method: MethodName,
    name: NameId,
    found: &mut Vec<Witness>,
    steps: &mut Steps<L>,
) -> Result<(), Memory>
    requires { IsOrderly image.now }
    ensures { OnOk result (shown image.now found.new.items ≡ shown image.now found.old.items ++ option_map_or (names.namings_in_method nat_eq name) (method_at (asked_by image.now.names) (number_image image.now) method.class method.meta method.selector) []) }
{
    match own_method(image, method) {
        None => Ok(()),
        Some(slot) => {
            let sought = Sought::Name(name);
            slot_witnesses(alloc, image, Whose::Users, &sought, slot, found, steps)
        }
    }
}
