// The commands by which variables and methods go up.
ghost use Rattle.std.specs.Prelude.{◌≡◌, ◌++◌, ◌∷◌, [], false, nat_eq, map, filter, option_map, IfOk, OnOk};
ghost use Rattle.std.specs.List.{filter_map};
ghost use Rattle.session_model.specs.Steps.{shared_pushes};
ghost use Rattle.mentions.specs.Listing.{pointed};
ghost use Rattle.commands.specs.Views.{command_of};
ghost use Rattle.commands.specs.declared.command.Command.TheVariants as kinds;
ghost use Rattle.class_table.specs.View.{number_image};
ghost use Rattle.reference_index.specs.Mentioned.{IsIndexOf};
ghost use Rattle.composites.specs.Pushed.{variable_push, have_all, has_name, is_used, own_at, slot_push};

use class_questions::has_variable;
use class_table::{ClassId, Image, MethodSlot, Place};
use commands::{Command, MethodName, VariableMove};
use mentions::nodes_of;
use name_meanings::VariableKind;
use node_questions::uses;
use rb_base::{Memory, NameId, Steps};
use reference_index::Index;
use st_tree::Node;
use std::alloc::Global;
use std::sync::ledger::Ledger;
use users_methods::is_listed;

/// Puts a command at the end.
pub(crate) fn put(command: Command, commands: &mut Vec<Command>) -> Result<(), Memory>
    ensures { OnOk result (commands.new.items ≡ commands.old.items ++ command ∷ []) }
{
    commands.push(command)?;
    Ok(())
}

/// Whether each of the classes has the instance variable.
fn have_all(image: &Image, classes: &[NameId], variable: NameId) -> bool
    ensures { result ≡ have_all image.now classes.now variable }
{
    for class in classes {
        if !has_variable(image, VariableKind::Instance, *class, variable) {
            return false;
        }
    }
    true
}

/// Puts the commands at the end by which those of the variables go up from the class that all of the others have.
fn put_shared(
    image: &Image,
    class: NameId,
    variables: &[NameId],
    others: &[NameId],
    commands: &mut Vec<Command>,
) -> Result<(), Memory>
    ensures { OnOk result (commands.new.items ≡ commands.old.items ++ map (variable_push class) (filter (have_all image.now others.now) variables.now)) }
{
    for variable in variables {
        if have_all(image, others, *variable) {
            let up = VariableMove::InstanceUp {
                class,
                variable: *variable,
            };
            put(Command::Variable(up), commands)?;
        }
    }
    Ok(())
}

/// The commands by which the instance variables that all of the classes have go up from the first one, in its order.
pub(crate) fn shared_pushes(
    alloc: Global,
    image: &Image,
    classes: &[NameId],
) -> Result<Vec<Command>, Memory>
    ensures { IfOk result (λ found. map command_of found.items ≡ shared_pushes nat_eq (number_image image.now) classes.now) }
{
    let mut commands = Vec::new(alloc);
    let Some((first, others)) = classes.split_first() else {
        return Ok(commands);
    };
    if let Some(id) = image.class_named(*first) {
        if let Some(rec) = image.class_rec(id) {
            put_shared(
                image,
                *first,
                rec.instance.as_slice(),
                others,
                &mut commands,
            )?;
        }
    }
    Ok(commands)
}

/// Whether the class in a slot is live and has the name.
fn has_name(image: &Image, id: ClassId, name: NameId) -> bool
    ensures { result ≡ has_name image.now name id }
{
    match image.class_rec(id) {
        None => false,
        Some(rec) => name == rec.name,
    }
}

/// Whether one of the nodes reads or assigns the name.
fn is_used(nodes: &[&Node], name: NameId) -> bool
    ensures { result ≡ is_used name (pointed nodes.now) }
{
    for node in nodes {
        if uses(*node, name) {
            return true;
        }
    }
    false
}

/// The slot at a place, if it holds a live instance method of the class.
fn own_at(image: &Image, class: NameId, place: Place) -> Option<MethodSlot>
    ensures { result ≡ own_at image.now class place }
{
    match place {
        Place::Method(slot) => {
            let Some(info) = image.method_info(slot) else {
                return None;
            };
            if info.meta || !has_name(image, info.class, class) {
                return None;
            }
            Some(slot)
        }
        Place::DoIt(_) => None,
    }
}

/// The slots at the places that do.
fn own_slots(
    alloc: Global,
    image: &Image,
    class: NameId,
    places: &[Place],
) -> Result<Vec<MethodSlot>, Memory>
    ensures { IfOk result (λ found. found.items ≡ filter_map (own_at image.now class) places.now) }
{
    let found = places
        .iter()
        .filter_map(|place| own_at(image, class, *place))
        .collect(alloc)?;
    Ok(found)
}

/// The selector of the method in a slot, if it goes up as a live instance method of the class that names the variable.
fn pushed_selector<L: Ledger>(
    alloc: Global,
    image: &Image,
    class: NameId,
    variable: NameId,
    slot: MethodSlot,
    steps: &mut Steps<L>,
) -> Result<Option<NameId>, Memory>
    ensures { IfOk result (λ found. option_map (λ selector. kinds.PushUpMethod (record { class = class; meta = false; selector = selector })) found ≡ slot_push image.now class variable slot) }
{
    let Some(info) = image.method_info(slot) else {
        return Ok(None);
    };
    if info.meta || !has_name(image, info.class, class) {
        return Ok(None);
    }
    let Some(tree) = image.open_body(slot, steps) else {
        return Ok(None);
    };
    let nodes = nodes_of(alloc, &tree.body)?;
    if !is_used(nodes.as_slice(), variable) {
        return Ok(None);
    }
    Ok(Some(info.selector))
}

/// Puts the commands at the end by which the instance methods of the class that name the variable go up. Looks only at those that
/// mention it, and opens each of them once.
pub(crate) fn put_method_pushes<L: Ledger>(
    alloc: Global,
    image: &Image,
    index: &Index,
    class: NameId,
    variable: NameId,
    commands: &mut Vec<Command>,
    steps: &mut Steps<L>,
) -> Result<(), Memory>
    requires { IsIndexOf image.now index.now }
    ensures { OnOk result (commands.new.items ≡ commands.old.items ++ filter_map (slot_push image.now class variable) image.now.method_order) }
{
    let slots = own_slots(alloc, image, class, index.listed(variable))?;
    let own = slots.as_slice();
    for slot in image.methods() {
        if !is_listed(own, *slot) {
            continue;
        }
        let found = pushed_selector(alloc, image, class, variable, *slot, steps)?;
        if let Some(selector) = found {
            let method = MethodName {
                class,
                meta: false,
                selector,
            };
            put(Command::PushUpMethod(method), commands)?;
        }
    }
    Ok(())
}
