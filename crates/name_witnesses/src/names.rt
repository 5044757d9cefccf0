// The witnesses of the conditions of names.
ghost use Rattle.std.specs.Prelude.{◌≡◌, ◌++◌, nat_eq, OnOk};
ghost use Rattle.class_table.specs.Valid.{IsOrderly};
ghost use Rattle.class_table.specs.View.{number_image};
ghost use Rattle.command_model.specs.Numbers.{number_command_words};
ghost use Rattle.refusal_witnesses.specs.NameWitnesses.{kernel_speakings, namings, reflections_there, speakings};
ghost use Rattle.witness_lists.specs.Views.{shown};

use class_table::Image;
use name_questions::has_own_meaning;
use rb_base::{Memory, NameId, Steps};
use std::alloc::Global;
use std::sync::ledger::Ledger;
use witness_lists::{
    ClassTest, Sought, Whose, Witness, classes_that, push_if, sought_in_code, sought_in_methods,
    text_of,
};

/// Appends the code of the user that looks at the program itself: a method for messages that are not understood, and nodes.
pub fn reflections_there<L: Ledger>(
    alloc: Global,
    image: &Image,
    found: &mut Vec<Witness>,
    steps: &mut Steps<L>,
) -> Result<(), Memory>
    ensures { OnOk result (shown image.now found.new.items ≡ shown image.now found.old.items ++ reflections_there (number_command_words image.now.names) (number_image image.now)) }
{
    sought_in_code(
        alloc,
        image,
        Whose::Users,
        &Sought::Reflection,
        found,
        steps,
    )
}

/// Appends the classes that have the name or a variable of it, and the code that reads, assigns or declares it.
pub fn namings<L: Ledger>(
    alloc: Global,
    image: &Image,
    name: NameId,
    found: &mut Vec<Witness>,
    steps: &mut Steps<L>,
) -> Result<(), Memory>
    requires { IsOrderly image.now }
    ensures { OnOk result (shown image.now found.new.items ≡ shown image.now found.old.items ++ namings nat_eq (number_image image.now) name) }
{
    classes_that(image, &ClassTest::Named(name), found)?;
    sought_in_code(
        alloc,
        image,
        Whose::Everyone,
        &Sought::Name(name),
        found,
        steps,
    )
}

/// Appends the methods of the selector, and the nodes that send it.
pub fn speakings<L: Ledger>(
    alloc: Global,
    image: &Image,
    selector: NameId,
    found: &mut Vec<Witness>,
    steps: &mut Steps<L>,
) -> Result<(), Memory>
    ensures { OnOk result (shown image.now found.new.items ≡ shown image.now found.old.items ++ speakings nat_eq (number_image image.now) selector) }
{
    sought_in_code(
        alloc,
        image,
        Whose::Everyone,
        &Sought::Selector(selector),
        found,
        steps,
    )
}

/// Appends the methods of the kernel that have the selector or send it, and the selector, if it has a meaning of its own.
pub fn kernel_speakings<L: Ledger>(
    alloc: Global,
    image: &Image,
    selector: NameId,
    found: &mut Vec<Witness>,
    steps: &mut Steps<L>,
) -> Result<(), Memory>
    ensures { OnOk result (shown image.now found.new.items ≡ shown image.now found.old.items ++ kernel_speakings nat_eq (number_command_words image.now.names) (number_image image.now) selector) }
{
    let sought = Sought::Selector(selector);
    sought_in_methods(alloc, image, Whose::Kernel, &sought, found, steps)?;
    let has_meaning = has_own_meaning(text_of(image.names(), selector));
    push_if(has_meaning, Witness::Selector(selector), found)
}
