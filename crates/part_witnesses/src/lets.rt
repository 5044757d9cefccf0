// Why a temporary may not be read as what is assigned to it.
ghost use Rattle.std.specs.Prelude.{◌≡◌, ◌++◌, map, OnOk};
ghost use Rattle.std.specs.List.{flat_map};
ghost use Rattle.class_table.specs.Valid.{IsOrderly};
ghost use Rattle.class_table.specs.View.{number_image};
ghost use Rattle.command_model.specs.LetConditions as conditions;
ghost use Rattle.command_model.specs.Temporaries.{reads_of};
ghost use Rattle.commands.specs.Views.{asked_by};
ghost use Rattle.let_code.specs.Lets.{let_as};
ghost use Rattle.refusal_witnesses.specs.TemporaryWitnesses as model;
ghost use Rattle.refusal_witnesses.specs.Witnesses.{a_node};
ghost use Rattle.st_tree.specs.View.{method_of};
ghost use Rattle.witness_lists.specs.declared.witness.Owner.TheVariants as owner;
ghost use Rattle.witness_lists.specs.Views.{owner_of, shown};
ghost use Rattle.part_witnesses.specs.Held.{IsHeld, held_as};
ghost use Rattle.part_witnesses.specs.Changed.{changed_name};

use crate::declarations::declarations;
use crate::held::{Held, code_of, meaning_in, means_same};
use crate::push::{Named, push_above_if, push_meanings_if};
use crate::sought::assignments_to;
use class_table::Image;
use code_conditions::self_name;
use inline_questions::{free_names_of, makes_control};
use let_code::{Let, let_of, reads_of};
use let_questions::{LetCode, is_let_form, let_path};
use rb_base::{Memory, NameId};
use st_tree::Path;
use std::alloc::Global;
use witness_lists::{Owner, Witness, push_node_if};

/// Appends the reads of the temporary.
fn reads(
    alloc: Global,
    image: &Image,
    method: &Held<'_>,
    variable: NameId,
    found: &mut Vec<Witness>,
) -> Result<(), Memory>
    ensures { OnOk result (shown image.now found.new.items ≡ shown image.now found.old.items ++ map (a_node (owner_of image.now (owner.Method method.now.slot))) (reads_of (asked_by image.now.names) (method_of method.now.tree.now) variable)) }
{
    let owner = Owner::Method(method.slot);
    let reads = reads_of(alloc, image.names(), method.tree, variable)?;
    for read in reads.as_slice() {
        push_node_if(alloc, true, &owner, read, found)?;
    }
    Ok(())
}

/// Appends the one assignment to the temporary and the reads, if what is assigned may not stand in place of these; and if there
/// is no such assignment, what declares and what assigns the name.
pub(crate) fn no_let(
    alloc: Global,
    image: &Image,
    method: &Held<'_>,
    variable: NameId,
    found: &mut Vec<Witness>,
) -> Result<(), Memory>
    requires orderly { IsOrderly image.now }
    requires held { IsHeld image.now method.now }
    ensures { OnOk result (shown image.now found.new.items ≡ shown image.now found.old.items ++ model.no_let (asked_by image.now.names) (number_image image.now) (held_as image.now.classes method.now) variable) }
{
    let owner = Owner::Method(method.slot);
    let names = image.names();
    let Some(assignment) = let_of(alloc, names, method.tree, variable)? else {
        declarations(alloc, image, method, variable, found)?;
        return assignments_to(alloc, image, variable, &owner, &method.tree.body, found);
    };
    let question = LetCode {
        code: code_of(method),
        variable,
        assignment: &assignment,
    };
    if is_let_form(alloc, image, self_name(names), &question)? {
        return Ok(());
    }
    let path = let_path(alloc, &assignment)?;
    push_node_if(alloc, true, &owner, &path, found)?;
    reads(alloc, image, method, variable, found)
}

/// Appends those of the names that mean another thing at a read than at the assignment, to which `path` leads.
fn changed_at(
    alloc: Global,
    image: &Image,
    method: &Held<'_>,
    path: &Path,
    read: &Path,
    names: &[NameId],
    found: &mut Vec<Witness>,
) -> Result<(), Memory>
    requires orderly { IsOrderly image.now }
    requires held { IsHeld image.now method.now }
    ensures { OnOk result (shown image.now found.new.items ≡ shown image.now found.old.items ++ flat_map (changed_name image.now (held_as image.now.classes method.now) path.now read.now) names.now) }
{
    for name in names {
        let before = meaning_in(image, method, path, *name);
        let after = meaning_in(image, method, read, *name);
        let changed = !means_same(image, method, path, method, read, *name);
        let named = Named {
            owner: Owner::Method(method.slot),
            path: read,
            name: *name,
            one: before,
            other: after,
        };
        push_meanings_if(alloc, changed, &named, found)?;
    }
    Ok(())
}

/// Appends the free names of what is assigned that mean another thing at a read.
pub(crate) fn changed_names(
    alloc: Global,
    image: &Image,
    method: &Held<'_>,
    variable: NameId,
    assignment: &Let<'_>,
    found: &mut Vec<Witness>,
) -> Result<(), Memory>
    requires orderly { IsOrderly image.now }
    requires held { IsHeld image.now method.now }
    ensures { OnOk result (shown image.now found.new.items ≡ shown image.now found.old.items ++ model.changed_names (asked_by image.now.names) (number_image image.now) (held_as image.now.classes method.now) variable (let_as assignment.now)) }
{
    let names = image.names();
    let reads = reads_of(alloc, names, method.tree, variable)?;
    let free = free_names_of(alloc, names, assignment.value)?;
    let path = let_path(alloc, assignment)?;
    for read in reads.as_slice() {
        changed_at(alloc, image, method, &path, read, free.as_slice(), found)?;
    }
    Ok(())
}

/// Appends the nodes above reads that become control sends.
pub(crate) fn new_controls(
    alloc: Global,
    image: &Image,
    method: &Held<'_>,
    variable: NameId,
    assignment: &Let<'_>,
    found: &mut Vec<Witness>,
) -> Result<(), Memory>
    requires { IsHeld image.now method.now }
    ensures { OnOk result (shown image.now found.new.items ≡ shown image.now found.old.items ++ model.new_controls (asked_by image.now.names) (number_image image.now) (held_as image.now.classes method.now) variable (let_as assignment.now)) }
{
    let owner = Owner::Method(method.slot);
    let names = image.names();
    let reads = reads_of(alloc, names, method.tree, variable)?;
    for read in reads.as_slice() {
        let makes = makes_control(alloc, names, method.tree, read, assignment.value)?;
        push_above_if(alloc, makes, &owner, read, found)?;
    }
    Ok(())
}
