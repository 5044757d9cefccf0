// Walks over the methods and the do-its of an image by their numbers, that gather uses.
ghost use Rattle.std.specs.Prelude.{◌≡◌, ◌++◌, OnOk};
ghost use Rattle.class_table.specs.Slots.{Slots};
ghost use Rattle.class_table.specs.Valid.{IsOrderly};
ghost use Rattle.parameter_questions.specs.Codes.{IsOfLiveClass, body_of, means_in};
ghost use Rattle.refusal_witnesses.specs.Witnesses.{a_node, nodes_that, where_true};
ghost use Rattle.witness_lists.specs.Views.{owner_of, shown};
ghost use Rattle.use_witnesses.specs.Uses.{doit_uses, is_use, method_uses, uses_in_doits, uses_in_methods, uses_there};

use class_table::Image;
use node_questions::{sends, uses};
use parameter_questions::{Code, are_dropped_by, body_of, meaning_at};
use placed_nodes::{PlacedNode, placed_nodes};
use rb_base::{Memory, NameId, Steps};
use st_tree::Path;
use std::alloc::Global;
use std::sync::ledger::Ledger;
use use_questions::{Meant, Whose, are_doits_asked, is_asked, is_meant};
use witness_lists::{Owner, Witness};

/// What a node is to do.
#[derive(Clone, Copy)]
pub(crate) enum Use {
    /// It means a class or a variable.
    Means(Meant),
    /// It sends the selector.
    Sends(NameId),
    /// It passes something else than an atom or a name that is declared for the argument of a number, from 0.
    Passes { selector: NameId, number: usize },
}

/// The nodes that do something, in whose code.
#[derive(Clone, Copy)]
pub(crate) struct Uses {
    pub whose: Whose,
    pub what: Use,
}

/// Appends the node to which a path leads, if a test is true.
pub(crate) fn push_node_if(
    alloc: Global,
    test: bool,
    owner: &Owner,
    path: &Path,
    found: &mut Vec<Witness>,
) -> Result<(), Memory>
    ensures { (s : Slots) → OnOk result (shown s found.new.items ≡ shown s found.old.items ++ where_true test (a_node (owner_of s owner.now) path.now)) }
{
    if test {
        let path = path.try_copy(alloc)?;
        found.push(Witness::Node {
            owner: *owner,
            path,
        })?;
    }
    Ok(())
}

/// Whether a node of the code does it.
fn is_use(image: &Image, what: &Use, code: &Code<'_>, placed: &PlacedNode<'_>) -> bool
    requires orderly { IsOrderly image.now }
    requires live { IsOfLiveClass image.now code.now }
    ensures { result ≡ is_use what.now (means_in image.now code.now) (placed.now.path, placed.now.node.now) }
{
    match what {
        Use::Means(meant) => {
            let name = meant.name();
            uses(placed.node, name) && is_meant(meant, meaning_at(image, code, &placed.path, name))
        }
        Use::Sends(selector) => sends(placed.node, *selector),
        Use::Passes { selector, number } => {
            !are_dropped_by(image, code, placed, *selector, *number)
        }
    }
}

/// Appends the nodes of the code that do it, as nodes of the owner.
fn uses_in_code(
    alloc: Global,
    image: &Image,
    what: &Use,
    owner: &Owner,
    code: &Code<'_>,
    found: &mut Vec<Witness>,
) -> Result<(), Memory>
    requires orderly { IsOrderly image.now }
    requires live { IsOfLiveClass image.now code.now }
    ensures { OnOk result (shown image.now found.new.items ≡ shown image.now found.old.items ++ nodes_that (is_use what.now (means_in image.now code.now)) (owner_of image.now owner.now) (body_of code.now)) }
{
    let nodes = placed_nodes(alloc, body_of(code))?;
    for placed in nodes.as_slice() {
        let is_one = is_use(image, what, code, placed);
        push_node_if(alloc, is_one, owner, &placed.path, found)?;
    }
    Ok(())
}

/// Appends the uses in the method of a number, if there are so many and the method is asked.
fn method_uses<L: Ledger>(
    alloc: Global,
    image: &Image,
    sought: &Uses,
    number: usize,
    found: &mut Vec<Witness>,
    steps: &mut Steps<L>,
) -> Result<(), Memory>
    requires { IsOrderly image.now }
    ensures { OnOk result (shown image.now found.new.items ≡ shown image.now found.old.items ++ method_uses image.now sought.now number) }
{
    let Some(slot) = image.methods().get(number) else {
        return Ok(());
    };
    let Some(info) = image.method_info(*slot) else {
        return Ok(());
    };
    if !is_asked(image, sought.whose, &info) {
        return Ok(());
    }
    match image.open_body(*slot, steps) {
        None => Ok(()),
        Some(tree) => {
            let code = Code::Method {
                class: info.class,
                meta: info.meta,
                tree,
            };
            let owner = Owner::Numbered(number);
            uses_in_code(alloc, image, &sought.what, &owner, &code, found)
        }
    }
}

/// Appends the uses in the methods, in their order.
fn uses_in_methods<L: Ledger>(
    alloc: Global,
    image: &Image,
    sought: &Uses,
    found: &mut Vec<Witness>,
    steps: &mut Steps<L>,
) -> Result<(), Memory>
    requires { IsOrderly image.now }
    ensures { OnOk result (shown image.now found.new.items ≡ shown image.now found.old.items ++ uses_in_methods image.now sought.now) }
{
    let mut number = 0;
    while number < image.methods().len() {
        method_uses(alloc, image, sought, number, found, steps)?;
        number += 1;
    }
    Ok(())
}

/// Appends the uses in the do-it of a number, if there are so many.
fn doit_uses<L: Ledger>(
    alloc: Global,
    image: &Image,
    sought: &Uses,
    number: usize,
    found: &mut Vec<Witness>,
    steps: &mut Steps<L>,
) -> Result<(), Memory>
    requires { IsOrderly image.now }
    ensures { OnOk result (shown image.now found.new.items ≡ shown image.now found.old.items ++ doit_uses image.now sought.now number) }
{
    match image.open_doit(number, steps) {
        None => Ok(()),
        Some(body) => {
            let (owner, code) = (Owner::DoIt(number), Code::DoIt { body });
            uses_in_code(alloc, image, &sought.what, &owner, &code, found)
        }
    }
}

/// Appends the uses in the do-its, in their order, if do-its are asked.
fn uses_in_doits<L: Ledger>(
    alloc: Global,
    image: &Image,
    sought: &Uses,
    found: &mut Vec<Witness>,
    steps: &mut Steps<L>,
) -> Result<(), Memory>
    requires { IsOrderly image.now }
    ensures { OnOk result (shown image.now found.new.items ≡ shown image.now found.old.items ++ uses_in_doits image.now sought.now) }
{
    if !are_doits_asked(sought.whose) {
        return Ok(());
    }
    let mut number = 0;
    while number < image.doits() {
        doit_uses(alloc, image, sought, number, found, steps)?;
        number += 1;
    }
    Ok(())
}

/// Appends the uses in the methods, and then those in the do-its.
pub(crate) fn uses_there<L: Ledger>(
    alloc: Global,
    image: &Image,
    sought: &Uses,
    found: &mut Vec<Witness>,
    steps: &mut Steps<L>,
) -> Result<(), Memory>
    requires { IsOrderly image.now }
    ensures { OnOk result (shown image.now found.new.items ≡ shown image.now found.old.items ++ uses_there image.now sought.now) }
{
    uses_in_methods(alloc, image, sought, found, steps)?;
    uses_in_doits(alloc, image, sought, found, steps)
}
