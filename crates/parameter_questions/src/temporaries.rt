// What is declared and named in a method of the user.
ghost use Rattle.std.specs.Prelude.{◌≡◌, ◌==◌, ◌++◌, ◌||◌, false, not, filter, length, nat_eq, option_map, IfOk, OnOk};
ghost use Rattle.std.specs.List.{flat_map, list_any};
ghost use Rattle.std.specs.Option.{option_map_or, option_copied};
ghost use Rattle.image_model.specs.Image.{EntryOf};
ghost use Rattle.image_model.specs.Uses.{name_used};
ghost use Rattle.st_tree.specs.View.{method_of};
ghost use Rattle.class_table.specs.Valid.{IsOrderly};
ghost use Rattle.class_table.specs.View.{number_image};
ghost use Rattle.mentions.specs.Listing.{pointed};
ghost use Rattle.rename_model.specs.NamesThere.{declared_by, is_named_in_method};
ghost use Rattle.command_model.specs.CodeEffects.{method_at};
ghost use Rattle.command_model.specs.Temporaries as model;
ghost use Rattle.commands.specs.Views.{asked_by};
ghost use Rattle.parameter_questions.specs.Named.{names_it};

use class_table::Image;
use commands::MethodName;
use hierarchy_questions::own_method;
use mentions::nodes_of;
use name_meanings::is_among;
use node_questions::uses;
use rb_base::{Ids, Memory, NameId, Steps};
use st_tree::{Method, Node, NodeKind};
use std::alloc::Global;
use std::sync::ledger::Ledger;

/// The method of these names, if the class itself has it and it is one of the user. Counts at most one step.
pub fn users_method<'a, L: Ledger>(
    image: &'a Image,
    method: MethodName,
    steps: &mut Steps<L>,
) -> Option<&'a Method>
    requires { IsOrderly image.now }
    ensures { option_map method_of (option_copied result) ≡ option_map (λ (m : EntryOf _). m.tree) (method_at (asked_by image.now.names) (number_image image.now) method.class method.meta method.selector) }
{
    let slot = own_method(image, method)?;
    let Some(info) = image.method_info(slot) else {
        return None;
    };
    if info.kernel {
        return None;
    }
    image.open_body(slot, steps)
}

/// Puts the names at the end.
fn put_names(names: &[NameId], declared: &mut Ids) -> Result<(), Memory>
    ensures { OnOk result (declared.new ≡ declared.old ++ names.now) }
{
    for name in names {
        declared.push(*name)?;
    }
    Ok(())
}

/// Puts the names at the end that the node declares.
fn put_declared(node: &Node, declared: &mut Ids) -> Result<(), Memory>
    ensures { OnOk result (declared.new ≡ declared.old ++ declared_by node.now) }
{
    match &node.kind {
        NodeKind::Block { parameters, body } => {
            put_names(parameters.as_slice(), declared)?;
            put_names(body.temporaries.as_slice(), declared)
        }
        _ => Ok(()),
    }
}

/// The names that a method of these nodes declares, each as often as it is declared.
fn declared_in(alloc: Global, tree: &Method, nodes: &[&Node]) -> Result<Ids, Memory>
    ensures { IfOk result (λ declared. declared ≡ (method_of tree.now).arguments ++ (method_of tree.now).body.temporaries ++ flat_map declared_by (pointed nodes.now)) }
{
    let mut declared = Ids::new(alloc);
    put_names(tree.arguments.as_slice(), &mut declared)?;
    put_names(tree.body.temporaries.as_slice(), &mut declared)?;
    for node in nodes {
        put_declared(*node, &mut declared)?;
    }
    Ok(declared)
}

/// Whether the name stands just once among these.
fn is_once(names: &[NameId], name: NameId) -> bool
    ensures { result ≡ (length (filter (nat_eq name) names.now) == 1) }
{
    let mut count = 0_usize;
    for other in names {
        if name == *other {
            count += 1;
        }
    }
    count == 1
}

/// Whether one of the nodes reads or assigns the name.
fn is_any_use(nodes: &[&Node], name: NameId) -> bool
    ensures { result ≡ list_any (λ t. option_map_or (nat_eq name) (name_used t) false) (pointed nodes.now) }
{
    for node in nodes {
        if uses(*node, name) {
            return true;
        }
    }
    false
}

/// Whether just one place of the method declares the name. Want of memory, if there is not enough of it to look.
pub fn declares_once(alloc: Global, tree: &Method, name: NameId) -> Result<bool, Memory>
    ensures { IfOk result (λ is. is ≡ (length (filter (nat_eq name) (model.declared_in (method_of tree.now))) == 1)) }
{
    let nodes = nodes_of(alloc, &tree.body)?;
    let declared = declared_in(alloc, tree, nodes.as_slice())?;
    Ok(is_once(declared.as_slice(), name))
}

/// Whether the method declares, reads or assigns the name.
fn names_it(alloc: Global, tree: &Method, name: NameId) -> Result<bool, Memory>
    ensures { IfOk result (λ is. is ≡ names_it name (method_of tree.now)) }
{
    let found = nodes_of(alloc, &tree.body)?;
    let nodes = found.as_slice();
    let declared = declared_in(alloc, tree, nodes)?;
    if is_among(declared.as_slice(), name) {
        return Ok(true);
    }
    Ok(is_any_use(nodes, name))
}

/// Whether the user has the method, and just one place of it declares the name. Want of memory, if there is not enough of it
/// to look.
pub fn is_declared_once<L: Ledger>(
    alloc: Global,
    image: &Image,
    method: MethodName,
    variable: NameId,
    steps: &mut Steps<L>,
) -> Result<bool, Memory>
    requires { IsOrderly image.now }
    ensures { IfOk result (λ is. is ≡ option_map_or (λ (m : EntryOf _). model.is_declared_once (asked_by image.now.names) m.tree variable) (method_at (asked_by image.now.names) (number_image image.now) method.class method.meta method.selector) false) }
{
    match users_method(image, method, steps) {
        None => Ok(false),
        Some(tree) => declares_once(alloc, tree, variable),
    }
}

/// Whether the user has the method, and it neither declares nor reads nor assigns the name. Want of memory, if there is not
/// enough of it to look.
pub fn is_not_in<L: Ledger>(
    alloc: Global,
    image: &Image,
    method: MethodName,
    variable: NameId,
    steps: &mut Steps<L>,
) -> Result<bool, Memory>
    requires { IsOrderly image.now }
    ensures { IfOk result (λ is. is ≡ option_map_or (λ (m : EntryOf _). not (is_named_in_method nat_eq variable m)) (method_at (asked_by image.now.names) (number_image image.now) method.class method.meta method.selector) false) }
{
    match users_method(image, method, steps) {
        None => Ok(false),
        Some(tree) => Ok(!names_it(alloc, tree, variable)?),
    }
}
