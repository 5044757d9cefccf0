// The witnesses of the condition that code is low enough.
ghost use Rattle.std.specs.Prelude.{◌≡◌, ◌++◌, ℕ, not, Option, option_map, IfOk, OnOk};
ghost use Rattle.tree_model.specs.Normal.{normal};
ghost use Rattle.tree_model.specs.Tree.{MethodOf};
ghost use Rattle.image_model.specs.Image.{EntryOf};
ghost use Rattle.scope_model.specs.Control.{is_empty};
ghost use Rattle.class_table.specs.Valid.{IsOrderly};
ghost use Rattle.class_table.specs.View.{number_image};
ghost use Rattle.command_model.specs.CodeEffects.{tree_made};
ghost use Rattle.commands.specs.declared.command.CodeMove.TheVariants as code;
ghost use Rattle.commands.specs.Views.{asked_by, code_command, command_of};
ghost use Rattle.refusal_witnesses.specs.ParameterWitnesses as model;
ghost use Rattle.st_tree.specs.View.{method_of};
ghost use Rattle.witness_lists.specs.Views.{shown};
ghost use Rattle.use_witnesses.specs.Brought.{brought_heights, heights_there};
ghost use Rattle.use_witnesses.specs.Heights.{high_at, high_doits, high_methods, high_there, is_any_high, is_high_at, methods_made, owner_at, senders_made};

use abstracted_code::Abstraction;
use class_table::{Image, Place};
use code_conditions::{is_place_high, self_name, with_body, with_temporary, with_value};
use commands::{CodeMove, Command, MethodName, MethodPart};
use extracted_code::{Extracted, extract};
use hierarchy_questions::own_method;
use image_heights::is_high;
use parameter_questions::{Fault, Question, is_place_found};
use part_lookup::kept_part;
use rb_base::{Memory, NameId, Steps};
use st_tree::Method;
use std::alloc::Global;
use std::sync::ledger::Ledger;
use witness_lists::{Owner, Witness, push_if};

/// Which code is looked at.
#[derive(Clone, Copy)]
pub(crate) enum Looked {
    /// All of the user's.
    All,
    /// What has the selector or sends it.
    Speaking(NameId),
    /// What means the variable, once it reads and assigns it by messages.
    Abstracted(Abstraction),
}

/// Whether the code at a place is one of the user's, if there is code, and higher than 200 nodes.
fn is_any_high<L: Ledger>(image: &Image, place: Place, steps: &mut Steps<L>) -> bool
    ensures { result ≡ is_any_high image.now place }
{
    match place {
        Place::Method(slot) => {
            let Some(info) = image.method_info(slot) else {
                return false;
            };
            if info.kernel {
                return false;
            }
            match image.open_body(slot, steps) {
                None => false,
                Some(tree) => is_high(&tree.body),
            }
        }
        Place::DoIt(number) => match image.open_doit(number, steps) {
            None => false,
            Some(body) => is_high(body),
        },
    }
}

/// Whether the code at a place is looked at and too high.
fn is_high_at<L: Ledger>(
    alloc: Global,
    image: &Image,
    looked: &Looked,
    place: Place,
    steps: &mut Steps<L>,
) -> Result<bool, Memory>
    requires { IsOrderly image.now }
    ensures { IfOk result (λ is. is ≡ is_high_at image.now looked.now place) }
{
    match looked {
        Looked::All => Ok(is_any_high(image, place, steps)),
        Looked::Speaking(selector) => {
            let question = Question {
                selector: *selector,
                fault: Fault::High,
            };
            is_place_found(alloc, image, &question, place, steps)
        }
        Looked::Abstracted(abstraction) => is_place_high(alloc, image, place, abstraction, steps),
    }
}

/// The code at a place, as what witnesses stand in.
fn owner_at(place: Place) -> Owner
    ensures { result ≡ owner_at place }
{
    match place {
        Place::Method(slot) => Owner::Method(slot),
        Place::DoIt(number) => Owner::DoIt(number),
    }
}

/// Appends the method or do-it at a place, if it is looked at and too high.
fn high_at<L: Ledger>(
    alloc: Global,
    image: &Image,
    looked: &Looked,
    place: &Place,
    found: &mut Vec<Witness>,
    steps: &mut Steps<L>,
) -> Result<(), Memory>
    requires { IsOrderly image.now }
    ensures { OnOk result (shown image.now found.new.items ≡ shown image.now found.old.items ++ high_at image.now looked.now place.now) }
{
    let is_one = is_high_at(alloc, image, looked, *place, steps)?;
    let owner = owner_at(*place);
    push_if(is_one, Witness::Whole(owner), found)
}

/// Appends the methods that are looked at and too high, in their order.
fn high_methods<L: Ledger>(
    alloc: Global,
    image: &Image,
    looked: &Looked,
    found: &mut Vec<Witness>,
    steps: &mut Steps<L>,
) -> Result<(), Memory>
    requires { IsOrderly image.now }
    ensures { OnOk result (shown image.now found.new.items ≡ shown image.now found.old.items ++ high_methods image.now looked.now) }
{
    for slot in image.methods() {
        high_at(alloc, image, looked, &Place::Method(*slot), found, steps)?;
    }
    Ok(())
}

/// Appends the do-its that are looked at and too high, in their order.
fn high_doits<L: Ledger>(
    alloc: Global,
    image: &Image,
    looked: &Looked,
    found: &mut Vec<Witness>,
    steps: &mut Steps<L>,
) -> Result<(), Memory>
    requires { IsOrderly image.now }
    ensures { OnOk result (shown image.now found.new.items ≡ shown image.now found.old.items ++ high_doits image.now looked.now) }
{
    let mut number = 0;
    while number < image.doits() {
        high_at(alloc, image, looked, &Place::DoIt(number), found, steps)?;
        number += 1;
    }
    Ok(())
}

/// Appends the methods, and then the do-its, that are looked at and too high.
fn high_there<L: Ledger>(
    alloc: Global,
    image: &Image,
    looked: &Looked,
    found: &mut Vec<Witness>,
    steps: &mut Steps<L>,
) -> Result<(), Memory>
    requires { IsOrderly image.now }
    ensures { OnOk result (shown image.now found.new.items ≡ shown image.now found.old.items ++ high_there image.now looked.now) }
{
    high_methods(alloc, image, looked, found, steps)?;
    high_doits(alloc, image, looked, found, steps)
}

/// Appends the user's methods and the do-its that are higher than 200 nodes.
pub fn too_high<L: Ledger>(
    alloc: Global,
    image: &Image,
    found: &mut Vec<Witness>,
    steps: &mut Steps<L>,
) -> Result<(), Memory>
    requires { IsOrderly image.now }
    ensures { OnOk result (shown image.now found.new.items ≡ shown image.now found.old.items ++ model.too_high (number_image image.now)) }
{
    high_there(alloc, image, &Looked::All, found, steps)
}

/// Appends the method, if a tree is made of it that is too high.
fn too_high_made(
    image: &Image,
    method: MethodName,
    tree: &Option<Method>,
    found: &mut Vec<Witness>,
) -> Result<(), Memory>
    requires { IsOrderly image.now }
    ensures { (change : EntryOf ℕ → Option (MethodOf ℕ)) → option_map method_of tree.now ≡ option_map normal (tree_made (asked_by image.now.names) (number_image image.now) method.class method.meta method.selector change) →
        OnOk result (shown image.now found.new.items ≡ shown image.now found.old.items ++ model.too_high_made (asked_by image.now.names) (number_image image.now) method.class method.meta method.selector change) }
{
    let Some(tree) = tree else {
        return Ok(());
    };
    match own_method(image, method) {
        None => Ok(()),
        Some(slot) => push_if(
            is_high(&tree.body),
            Witness::Whole(Owner::Method(slot)),
            found,
        ),
    }
}

/// What the part becomes, if it is there: a method, and the method that it is taken from.
fn extracted<L: Ledger>(
    alloc: Global,
    image: &Image,
    part: &MethodPart,
    to: NameId,
    steps: &mut Steps<L>,
) -> Result<Option<Extracted>, Memory>
    requires { IsOrderly image.now }
    ensures method { IfOk result (λ made. option_map (λ (x : Extracted). method_of x.method) made ≡ methods_made image.now part.now to) }
    ensures sender { IfOk result (λ made. option_map (λ (x : Extracted). method_of x.sender) made ≡ senders_made image.now part.now to) }
{
    let Some(found) = kept_part(alloc, image, part, &None, steps)? else {
        return Ok(None);
    };
    let names = image.names();
    let made = extract(
        alloc,
        names,
        self_name(names),
        found.method.tree,
        &found.part,
        to,
    )?;
    Ok(Some(made))
}

/// The method that the part is taken from, with a message in place of the part, if the part is there.
fn sender_made<L: Ledger>(
    alloc: Global,
    image: &Image,
    part: &MethodPart,
    to: NameId,
    steps: &mut Steps<L>,
) -> Result<Option<Method>, Memory>
    requires { IsOrderly image.now }
    ensures { IfOk result (λ tree. option_map method_of tree ≡ senders_made image.now part.now to) }
{
    match extracted(alloc, image, part, to, steps)? {
        None => Ok(None),
        Some(made) => Ok(Some(made.sender)),
    }
}

/// Whether the part is there, and the method that it becomes is too high.
fn is_part_high<L: Ledger>(
    alloc: Global,
    image: &Image,
    part: &MethodPart,
    to: NameId,
    steps: &mut Steps<L>,
) -> Result<bool, Memory>
    requires { IsOrderly image.now }
    ensures { IfOk result (λ is. is ≡ not (is_empty (brought_heights (asked_by image.now.names) (number_image image.now) (code_command (code.ExtractMethod part.now to))))) }
{
    match extracted(alloc, image, part, to, steps)? {
        None => Ok(false),
        Some(made) => Ok(is_high(&made.method.body)),
    }
}

/// Whether the method that the command brings is too high.
pub fn is_brought_high<L: Ledger>(
    alloc: Global,
    image: &Image,
    command: &Command,
    steps: &mut Steps<L>,
) -> Result<bool, Memory>
    requires { IsOrderly image.now }
    ensures { IfOk result (λ is. is ≡ not (is_empty (brought_heights (asked_by image.now.names) (number_image image.now) (command_of command.now)))) }
{
    match command {
        Command::MoveCode(CodeMove::ExtractMethod { part, to }) => {
            is_part_high(alloc, image, part, *to, steps)
        }
        _ => Ok(false),
    }
}

/// Appends the code of the image that the change makes too high.
fn heights_moved<L: Ledger>(
    alloc: Global,
    image: &Image,
    change: &CodeMove,
    found: &mut Vec<Witness>,
    steps: &mut Steps<L>,
) -> Result<(), Memory>
    requires { IsOrderly image.now }
    ensures { OnOk result (shown image.now found.new.items ≡ shown image.now found.old.items ++ heights_there (asked_by image.now.names) (number_image image.now) (code_command change.now)) }
{
    match change {
        CodeMove::AbstractVariable {
            class,
            variable,
            setter,
            parameter,
        } => {
            let looked = Looked::Abstracted(Abstraction {
                class: *class,
                variable: *variable,
                setter: *setter,
                parameter: *parameter,
                self_name: self_name(image.names()),
            });
            high_there(alloc, image, &looked, found, steps)
        }
        CodeMove::ExtractMethod { part, to } => {
            let tree = sender_made(alloc, image, part, *to, steps)?;
            too_high_made(image, part.method, &tree, found)
        }
        CodeMove::InlineMethod(part) => {
            let tree = with_body(alloc, image, part, &None, steps)?;
            too_high_made(image, part.method, &tree, found)
        }
        CodeMove::ExtractTemporary { part, variable } => {
            let tree = with_temporary(alloc, image, part, *variable, &None, steps)?;
            too_high_made(image, part.method, &tree, found)
        }
        CodeMove::InlineTemporary { method, variable } => {
            let tree = with_value(alloc, image, method, *variable, steps)?;
            too_high_made(image, *method, &tree, found)
        }
    }
}

/// Appends the code of the image that the command makes too high, or that is too high to be changed by it.
pub fn heights_there<L: Ledger>(
    alloc: Global,
    image: &Image,
    command: &Command,
    found: &mut Vec<Witness>,
    steps: &mut Steps<L>,
) -> Result<(), Memory>
    requires { IsOrderly image.now }
    ensures { OnOk result (shown image.now found.new.items ≡ shown image.now found.old.items ++ heights_there (asked_by image.now.names) (number_image image.now) (command_of command.now)) }
{
    match command {
        Command::AddParameter(new) => {
            high_there(alloc, image, &Looked::Speaking(new.selector), found, steps)
        }
        Command::MoveCode(change) => heights_moved(alloc, image, change, found, steps),
        _ => Ok(()),
    }
}
