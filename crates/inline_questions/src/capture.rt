// Whether each name in the method that a message finds means the same where the message stands.
ghost use Rattle.std.specs.Prelude.{◌≡◌, nat_eq, IfOk};
ghost use Rattle.std.specs.List.{list_any, list_all};
ghost use Rattle.scope_model.specs.FreeNames.{free_names};
ghost use Rattle.scope_model.specs.NameTests.{is_pseudo_in};
ghost use Rattle.scope_model.specs.Scope.{local_in};
ghost use Rattle.st_tree.specs.View.{method_of};
ghost use Rattle.class_table.specs.Valid.{IsOrderly};
ghost use Rattle.class_table.specs.View.{number_image};
ghost use Rattle.name_meanings.specs.Meanings.{meaning_of};
ghost use Rattle.command_model.specs.InlineConditions as model;
ghost use Rattle.command_model.specs.Places as places;
ghost use Rattle.command_model.specs.SameMethods.{same_meaning};
ghost use Rattle.commands.specs.Views.{asked_by};
ghost use Rattle.placed_nodes.specs.Placing.{placed};
ghost use Rattle.part_questions.specs.Codes.{entry_of};
ghost use Rattle.inlined_code.specs.Sending.{send_of};
ghost use Rattle.inline_questions.specs.Codes.{entry_in, IsCall};
ghost use Rattle.inline_questions.specs.Kept.{means_same, is_name_kept, is_kept};

use crate::code::Call;
use crate::control::alone;
use class_table::Image;
use inlined_code::passed_for;
use name_meanings::{Meaning, method_meaning};
use placed_nodes::{PlacedNode, placed_nodes};
use rb_base::{Ids, Memory, NameId, Names};
use st_scope::{Local, free_names_doit, local_at};
use st_tree::{Method, Node, NodeKind, Part, Path};
use std::alloc::Global;

/// Whether the name is declared in a block.
pub fn is_of_block(local: Local) -> bool
    ensures { result ≡ places.is_of_block local }
{
    match local {
        Local::Argument { scope } | Local::Temporary { scope } => scope != 0,
        Local::NotLocal => false,
    }
}

/// Whether a block round the place declares one of the names.
fn is_any_of_block(names: &Names, method: &Method, path: &Path, found: &[NameId]) -> bool
    ensures { result ≡ list_any (λ x. places.is_of_block (local_in nat_eq (is_pseudo_in names.now) (method_of method.now) path.now x)) found.now }
{
    for name in found {
        if is_of_block(local_at(method, path, *name, names)) {
            return true;
        }
    }
    false
}

/// The names in an expression that it does not declare itself, each once, in the order of the text. Want of memory, if there is
/// not enough of it for the list.
pub fn free_names_of(alloc: Global, names: &Names, node: &Node) -> Result<Ids, Memory>
    ensures { IfOk result (λ found. found ≡ free_names nat_eq (is_pseudo_in names.now) node.now) }
{
    let body = alone(alloc, node)?;
    let mut path = Path::new(alloc);
    path.push(0)?;
    let mut found = Ids::new(alloc);
    free_names_doit(alloc, &body, &Part::Expression { path }, names, &mut found)?;
    Ok(found)
}

/// Whether two meanings are one.
pub fn same_meaning(meaning: Meaning, other: Meaning) -> bool
    ensures { result ≡ same_meaning nat_eq (meaning_of meaning) (meaning_of other) }
{
    meaning == other
}

/// Whether the name, which nothing is passed for, means at a place of the target what it means where the message stands.
fn means_same(image: &Image, call: &Call<'_>, path: &Path, name: NameId) -> bool
    requires orderly { IsOrderly image.now }
    requires call { IsCall image.now call.now }
    ensures { result ≡ means_same image.now call.now path.now name }
{
    let there = &call.target.code;
    let here = &call.method;
    let meaning = method_meaning(image, there.class, there.meta, there.tree, path, name);
    let again = method_meaning(
        image,
        here.class,
        here.meta,
        here.tree,
        call.sent.path,
        name,
    );
    same_meaning(meaning, again)
}

/// Whether the name at a place of the target is kept.
fn is_name_kept(
    alloc: Global,
    image: &Image,
    call: &Call<'_>,
    path: &Path,
    name: NameId,
) -> Result<bool, Memory>
    requires orderly { IsOrderly image.now }
    requires call { IsCall image.now call.now }
    ensures { IfOk result (λ is. is ≡ is_name_kept image.now call.now path.now name) }
{
    let names = image.names();
    let target = call.target.code.tree;
    if let Some(node) = passed_for(names, target, call.sent.arguments, path, name) {
        let free = free_names_of(alloc, names, node)?;
        return Ok(!is_any_of_block(names, target, path, free.as_slice()));
    }
    if is_of_block(local_at(target, path, name, names)) {
        return Ok(true);
    }
    Ok(means_same(image, call, path, name))
}

/// Whether the name that a node of the target reads or assigns is kept; also where it names none.
fn is_kept(
    alloc: Global,
    image: &Image,
    call: &Call<'_>,
    found: &PlacedNode<'_>,
) -> Result<bool, Memory>
    requires orderly { IsOrderly image.now }
    requires call { IsCall image.now call.now }
    ensures { IfOk result (λ is. is ≡ is_kept image.now call.now (found.now.path, found.now.node.now)) }
{
    let node = found.node;
    match &node.kind {
        NodeKind::Var { name } | NodeKind::Assign { name, .. } => {
            is_name_kept(alloc, image, call, &found.path, *name)
        }
        _ => Ok(true),
    }
}

/// Whether it is of each of the nodes.
fn are_kept(
    alloc: Global,
    image: &Image,
    call: &Call<'_>,
    found: &[PlacedNode<'_>],
) -> Result<bool, Memory>
    requires orderly { IsOrderly image.now }
    requires call { IsCall image.now call.now }
    ensures { IfOk result (λ is. is ≡ list_all (is_kept image.now call.now) (placed found.now)) }
{
    for node in found {
        if !is_kept(alloc, image, call, node)? {
            return Ok(false);
        }
    }
    Ok(true)
}

/// Whether each name in the method that the message finds means the same where the message stands: what is passed for an
/// argument names nothing that a block round that place declares, what a block of the method declares moves along, and any other
/// name means the same in both methods. Want of memory, if there is not enough of it to look.
pub fn captures_nothing(alloc: Global, image: &Image, call: &Call<'_>) -> Result<bool, Memory>
    requires orderly { IsOrderly image.now }
    requires call { IsCall image.now call.now }
    ensures { IfOk result (λ is. is ≡ model.captures_nothing (asked_by image.now.names) (number_image image.now) (entry_of image.now call.now.method) (send_of call.now.sent) (entry_in image.now call.now.target)) }
{
    let found = placed_nodes(alloc, &call.target.code.tree.body)?;
    are_kept(alloc, image, call, found.as_slice())
}
