// The change of the record of a class.
ghost use Rattle.std.specs.Prelude.{◌≡◌, ◌++◌, map, IfOk, OnOk};
ghost use Rattle.name_meanings.specs.Meanings.{kind_of};
ghost use Rattle.plan_laws.specs.Planned as planned;
ghost use Rattle.rename_plans.specs.Given.{renamed_by, new_name};

use change_set::{Change, Changes};
use class_table::{ClassRec, Image};
use commands::Renaming;
use name_meanings::VariableKind;
use rb_base::{Ids, Memory, NameId};
use std::alloc::Global;

/// The name, or another one in place of one.
fn in_place(old: NameId, new: NameId, name: NameId) -> NameId
    ensures { result ≡ planned.in_place old new name }
{
    if old == name { new } else { name }
}

/// The names with another one in place of one.
fn replaced(alloc: Global, names: &Ids, old: NameId, new: NameId) -> Result<Ids, Memory>
    ensures { IfOk result (λ found. found ≡ map (planned.in_place old new) names.now) }
{
    let mut found = Ids::new(alloc);
    for name in names.as_slice() {
        found.push(in_place(old, new, *name))?;
    }
    Ok(found)
}

/// A copy of a record.
fn copied(alloc: Global, rec: &ClassRec) -> Result<ClassRec, Memory>
    ensures { IfOk result (λ copy. copy ≡ rec.now) }
{
    Ok(ClassRec {
        name: rec.name,
        superclass: rec.superclass,
        instance: rec.instance.try_copy(alloc)?,
        shared: rec.shared.try_copy(alloc)?,
        class_side: rec.class_side.try_copy(alloc)?,
        category: rec.category.try_copy(alloc)?,
        comment: rec.comment.try_copy(alloc)?,
        kernel: rec.kernel,
    })
}

/// Gives the variable of a kind another name in the record.
fn rename_variable(
    alloc: Global,
    rec: &mut ClassRec,
    kind: VariableKind,
    old: NameId,
    new: NameId,
) -> Result<(), Memory>
    ensures { OnOk result (rec.new ≡ planned.with_variable (kind_of kind) old new rec.old) }
{
    match kind {
        VariableKind::Instance => rec.instance = replaced(alloc, &rec.instance, old, new)?,
        VariableKind::ClassSide => rec.class_side = replaced(alloc, &rec.class_side, old, new)?,
        VariableKind::Shared => rec.shared = replaced(alloc, &rec.shared, old, new)?,
    }
    Ok(())
}

/// Gives what the command renames its new name in the record of its class.
fn rename_in(alloc: Global, rec: &mut ClassRec, command: &Renaming) -> Result<(), Memory>
    ensures { OnOk result (rec.new ≡ planned.class_rec_after (renamed_by command.now) (new_name command.now) rec.old) }
{
    match *command {
        Renaming::Class { to, .. } => rec.name = to,
        Renaming::Variable {
            kind,
            variable,
            to,
            ..
        } => rename_variable(alloc, rec, kind, variable, to)?,
        Renaming::Selector { .. } => {}
    }
    Ok(())
}

/// Puts the change of the record of a class at the end, if the command has one.
#[tactic(auto, using(crate::proofs::Slot::found_there))]
pub fn put_class_change(
    alloc: Global,
    image: &Image,
    command: &Renaming,
    changes: &mut Changes,
) -> Result<(), Memory>
    ensures { OnOk result (changes.new ≡ changes.old ++ planned.class_changes image.now (renamed_by command.now) (new_name command.now)) }
{
    let class = match *command {
        Renaming::Class { class, .. } => class,
        Renaming::Variable { class, .. } => class,
        Renaming::Selector { .. } => return Ok(()),
    };
    let Some(id) = image.class_named(class) else {
        return Ok(());
    };
    let Some(rec) = image.class_rec(id) else {
        return Ok(());
    };
    let mut rec = copied(alloc, rec)?;
    rename_in(alloc, &mut rec, command)?;
    changes.push(Change::Class { id, rec })
}
