// The changes by which a command is carried out.
ghost use Rattle.std.specs.Prelude.{◌≡◌, ◌<◌, ◌∷◌, [], ◌++◌, length, is_some, if◌then◌else◌, None, IfOk, OnOk};
ghost use Rattle.std.specs.List.{filter_map, cons_option};
ghost use Rattle.class_table.specs.Valid.{IsOrderly};
ghost use Rattle.class_table.specs.View.{number_image};
ghost use Rattle.command_model.specs.Judged.{first_false};
ghost use Rattle.command_numbers.specs.CommandNames.{CommandNames};
ghost use Rattle.commands.specs.Views.{asked_by, renaming_command};
ghost use Rattle.reference_index.specs.Mentioned.{IsIndexOf};
ghost use Rattle.renamed_code.specs.Anew.{name_before};
ghost use Rattle.renamed_code.specs.ChangedCode.{renamed_of, change_at};
ghost use Rattle.plan_laws.specs.Planned as planned;
ghost use Rattle.rename_plans.specs.Given as given;
ghost use Rattle.plans.specs.Plan.{IsPlan};

use crate::class_change::put_class_change;
use change_set::{Change, Changes};
use class_table::{Image, Place};
use commands::Renaming;
use plan_laws::law_planned;
use plans::Plan;
use rb_base::{Memory, NameId, Steps};
use reference_index::Index;
use renamed_code::{Renamed, code_change};
use std::alloc::Global;
use std::sync::ledger::Ledger;

/// What the command renames.
fn renamed_by(command: &Renaming) -> Renamed
    ensures { renamed_of result ≡ given.renamed_by command.now }
{
    match *command {
        Renaming::Class { class, .. } => Renamed::Class(class),
        Renaming::Variable {
            kind,
            class,
            variable,
            ..
        } => Renamed::Variable {
            kind,
            class,
            variable,
        },
        Renaming::Selector { selector, .. } => Renamed::Selector(selector),
    }
}

/// The name that it gives.
fn new_name(command: &Renaming) -> NameId
    ensures { result ≡ given.new_name command.now }
{
    match *command {
        Renaming::Class { to, .. } => to,
        Renaming::Variable { to, .. } => to,
        Renaming::Selector { to, .. } => to,
    }
}

/// The name that what it renames has.
fn old_name(command: &Renaming) -> NameId
    ensures { result ≡ name_before (given.renamed_by command.now) }
{
    match *command {
        Renaming::Class { class, .. } => class,
        Renaming::Variable { variable, .. } => variable,
        Renaming::Selector { selector, .. } => selector,
    }
}

/// Puts the change of the code at a place at the end, and the place, if there is one.
fn put_change(
    change: Option<Change>,
    place: Place,
    changes: &mut Changes,
    touched: &mut Vec<Place>,
) -> Result<(), Memory>
    ensures changes { OnOk result (changes.new ≡ changes.old ++ cons_option change []) }
    ensures touched { OnOk result (touched.new.items ≡ touched.old.items ++ (if is_some change then place ∷ [] else [])) }
{
    if let Some(change) = change {
        changes.push(change)?;
        touched.push(place)?;
    }
    Ok(())
}

/// Puts the changes of the code at these places at the end where it speaks of what is renamed, and these places.
fn put_code_changes<L: Ledger>(
    alloc: Global,
    image: &Image,
    places: &[Place],
    command: &Renaming,
    changes: &mut Changes,
    touched: &mut Vec<Place>,
    steps: &mut Steps<L>,
) -> Result<(), Memory>
    requires orderly { IsOrderly image.now }
    requires known { given.new_name command.now < length image.now.names }
    ensures changes { OnOk result (changes.new ≡ changes.old ++ filter_map (change_at image.now (given.renamed_by command.now) (given.new_name command.now)) places.now) }
    ensures touched { OnOk result (touched.new.items ≡ touched.old.items ++ planned.touched image.now (given.renamed_by command.now) (given.new_name command.now) places.now) }
{
    for place in places {
        let change = code_change(
            alloc,
            image,
            *place,
            renamed_by(command),
            new_name(command),
            steps,
        )?;
        put_change(change, *place, changes, touched)?;
    }
    Ok(())
}

/// The changes by which the command is carried out, none of whose conditions may be false.
#[tactic(auto, using(crate::proofs::Assembled::new_known))]
pub fn plan<L: Ledger>(
    alloc: Global,
    image: &Image,
    index: &Index,
    command: &Renaming,
    steps: &mut Steps<L>,
) -> Result<Plan, Memory>
    requires orderly { IsOrderly image.now }
    requires index { IsIndexOf image.now index.now }
    requires known { CommandNames (λ n. n < length image.now.names) (renaming_command command.now) }
    requires holds { first_false (asked_by image.now.names) (number_image image.now) (renaming_command command.now) ≡ None }
    ensures { IfOk result (λ found. IsPlan image.now (renaming_command command.now) found.changes found.touched.items) }
{
    law_planned();
    let places = index.listed(old_name(command));
    let mut changes = Changes::new(alloc);
    let mut touched = Vec::new(alloc);
    put_class_change(alloc, image, command, &mut changes)?;
    put_code_changes(
        alloc,
        image,
        places,
        command,
        &mut changes,
        &mut touched,
        steps,
    )?;
    Ok(Plan { changes, touched })
}
