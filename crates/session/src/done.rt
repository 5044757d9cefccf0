// An entry of the log, and how it is taken back and done again.
ghost use Rattle.std.specs.Prelude.{◌≡◌, [], ◌++◌, map, OnOk, OnErr};
ghost use Rattle.class_table.specs.Slots.{Slots};
ghost use Rattle.change_set.specs.Changes.{all_applied, inverses, CanApplyAll};
ghost use Rattle.wider_slots.specs.Closed.{IsClosed};
ghost use Rattle.class_table.specs.Valid.{IsOrderly};
ghost use Rattle.reference_index.specs.Mentioned.{IsIndexOf, DiffersAtMost};
ghost use Rattle.session.specs.Log as log;

use crate::renames::Renames;
use change_set::{Changes, apply_all, undo_all};
use class_table::{Image, Place};
use rb_base::{Memory, Steps};
use reference_index::Index;
use std::alloc::Global;
use std::marker::Model;
use std::sync::ledger::Ledger;

/// A single command that was done, and is done or undone now: the changes that lead to the other of both, and what it
/// renames.
pub(crate) struct DoneCommand {
    pub(crate) changes: Changes,
    pub(crate) renames: Renames,
}

/// It is written out and not derived: a function that gives up a command calls this one, and goes over no change itself.
impl Drop for DoneCommand {
    fn drop(self) {
        let DoneCommand {
            changes: _,
            renames: _,
        } = self;
    }
}

impl Model for DoneCommand {
    ghost use Rattle.session.specs.Log.{DoneCommand as Entry};
    ghost use Rattle.session.specs.LogCode.{coded_command};

    ghost Value = { Entry };

    ghost coded = { coded_command };

    ghost view = { λ a. record { changes = a.changes; renames = a.renames } };
}

/// An action that was done, and is done or undone now: its commands in order, and the places of the code that they change.
pub(crate) struct Done {
    pub(crate) commands: Vec<DoneCommand>,
    pub(crate) touched: Vec<Place>,
}

impl Drop for Done {
    fn drop(self) {
        let Done {
            commands: _,
            touched: _,
        } = self;
    }
}

impl Model for Done {
    ghost use Rattle.session.specs.Log.{Done as Entry};
    ghost use Rattle.session.specs.LogCode.{coded_done};

    ghost Value = { Entry };

    ghost coded = { coded_done };

    ghost view = { λ a. record { commands = a.commands.items; touched = a.touched.items } };
}

/// Undoes the commands, the last one first.
fn undo_each(image: &mut Image, commands: &mut [DoneCommand])
    requires { log.CanGoBack image.old commands.old }
    ensures image { image.new ≡ log.taken_back image.old commands.old }
    ensures commands { commands.new ≡ log.left_back image.old commands.old }
{
    let mut number = commands.len();
    while number > 0 {
        number -= 1;
        let command = &mut commands[number];
        undo_all(image, &mut command.changes);
    }
}

/// Does the commands again, the first one first.
fn redo_each(image: &mut Image, commands: &mut [DoneCommand])
    requires { log.CanGoForth image.old commands.old }
    ensures image { image.new ≡ log.done_again image.old commands.old }
    ensures commands { commands.new ≡ log.left_again image.old commands.old }
{
    for number in 0..commands.len() {
        let command = &mut commands[number];
        apply_all(image, &mut command.changes);
    }
}

/// Undoes the commands in the image and its index; on want of memory all is as before.
pub(crate) fn take_back<L: Ledger>(
    image: &mut Image,
    index: &mut Index,
    commands: &mut [DoneCommand],
    touched: &[Place],
    steps: &mut Steps<L>,
) -> Result<(), Memory>
    requires closed { IsClosed image.old }
    requires orderly { IsOrderly image.old }
    requires can { log.CanGoBack image.old commands.old }
    ensures image { OnOk result (image.new ≡ log.taken_back image.old commands.old) }
    ensures commands { OnOk result (commands.new ≡ log.left_back image.old commands.old) }
    ensures index { OnOk result ((s : Slots) → IsIndexOf s index.old → DiffersAtMost s image.new touched.now → IsIndexOf image.new index.new) }
    ensures same_image { OnErr result (image.new ≡ image.old) }
    ensures same_commands { OnErr result (commands.new ≡ commands.old) }
    ensures same_index { OnErr result (index.new ≡ index.old) }
{
    undo_each(image, commands);
    match index.update(image, touched, steps) {
        Ok(()) => Ok(()),
        Err(memory) => {
            redo_each(image, commands);
            Err(memory)
        }
    }
}

/// Does the commands again in the image and its index; on want of memory all is as before.
pub(crate) fn do_again<L: Ledger>(
    image: &mut Image,
    index: &mut Index,
    commands: &mut [DoneCommand],
    touched: &[Place],
    steps: &mut Steps<L>,
) -> Result<(), Memory>
    requires closed { IsClosed image.old }
    requires orderly { IsOrderly image.old }
    requires can { log.CanGoForth image.old commands.old }
    ensures image { OnOk result (image.new ≡ log.done_again image.old commands.old) }
    ensures commands { OnOk result (commands.new ≡ log.left_again image.old commands.old) }
    ensures index { OnOk result ((s : Slots) → IsIndexOf s index.old → DiffersAtMost s image.new touched.now → IsIndexOf image.new index.new) }
    ensures same_image { OnErr result (image.new ≡ image.old) }
    ensures same_commands { OnErr result (commands.new ≡ commands.old) }
    ensures same_index { OnErr result (index.new ≡ index.old) }
{
    redo_each(image, commands);
    match index.update(image, touched, steps) {
        Ok(()) => Ok(()),
        Err(memory) => {
            undo_each(image, commands);
            Err(memory)
        }
    }
}

/// Does a single command in the image and its index; on want of memory all is as before.
pub(crate) fn do_one<L: Ledger>(
    image: &mut Image,
    index: &mut Index,
    changes: &mut Changes,
    touched: &[Place],
    steps: &mut Steps<L>,
) -> Result<(), Memory>
    requires { CanApplyAll image.old changes.old }
    ensures image { OnOk result (image.new ≡ all_applied image.old changes.old) }
    ensures changes { OnOk result (changes.new ≡ inverses image.old changes.old) }
    ensures index { OnOk result ((s : Slots) → IsIndexOf s index.old → DiffersAtMost s image.new touched.now → IsIndexOf image.new index.new) }
    ensures same_image { OnErr result (image.new ≡ image.old) }
    ensures same_index { OnErr result (index.new ≡ index.old) }
{
    apply_all(image, changes);
    match index.update(image, touched, steps) {
        Ok(()) => Ok(()),
        Err(memory) => {
            undo_all(image, changes);
            Err(memory)
        }
    }
}

impl Done {
    /// An action without commands, which takes no memory.
    pub(crate) fn new(alloc: Global) -> Done
        ensures { result ≡ record { commands = []; touched = [] } }
    {
        Done {
            commands: Vec::new(alloc),
            touched: Vec::new(alloc),
        }
    }

    /// Puts what its commands rename at the end, in order.
    pub(crate) fn put_renames(&self, found: &mut Vec<Renames>) -> Result<(), Memory>
        ensures { OnOk result (found.new.items ≡ found.old.items ++ map (λ c. c.renames) self.now.commands) }
    {
        for command in &self.commands {
            found.push(command.renames)?;
        }
        Ok(())
    }

    /// Takes the action back in the image, and gives the places that it touched, at which the index is to be renewed.
    pub(crate) fn undo(self, image: &mut Image) -> Vec<Place>
        requires { log.CanGoBack image.old self.commands }
        ensures image { image.new ≡ log.taken_back image.old self.commands }
        ensures places { result.items ≡ self.touched }
    {
        let Done {
            mut commands,
            touched,
        } = self;
        undo_each(image, &mut commands);
        touched
    }
}
