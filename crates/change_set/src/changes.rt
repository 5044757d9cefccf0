// Changes of an image in order.
ghost use Rattle.std.specs.Prelude.{◌≡◌, [], ◌∷◌, ◌++◌, length, OnOk, OnErr};
ghost use Rattle.change_set.specs.Changes.{all_applied, inverses, CanApplyAll, all_undone, inverses_undone, CanUndoAll, Undoes, Redoes};

use crate::change::{Change, apply_change};
use class_table::Image;
use rb_base::Memory;
use std::alloc::Global;
use std::marker::Model;

/// Changes in order. Contracts see a list.
#[derive(Drop)]
pub struct Changes {
    items: Vec<Change>,
}

impl Model for Changes {
    ghost use Rattle.std.specs.Prelude.{List};
    ghost use Rattle.std.specs.Coded.{coded_list};
    ghost use Rattle.change_set.specs.declared.change.Change.{Change};
    ghost use Rattle.change_set.specs.ChangeCode.{coded_change};

    ghost Value = { List Change };

    ghost coded = { coded_list coded_change };

    ghost view = { λ a. a.items.items };
}

impl Changes {
    /// No changes, which takes no memory.
    pub fn new(alloc: Global) -> Changes
        ensures { result ≡ [] }
    {
        Changes {
            items: Vec::new(alloc),
        }
    }

    /// The changes.
    pub fn as_slice(&self) -> &[Change]
        ensures { result.now ≡ self.now }
    {
        self.items.as_slice()
    }

    /// How many changes there are.
    pub fn len(&self) -> usize
        ensures { result ≡ length self.now }
    {
        self.items.len()
    }

    /// Appends a change; on want of memory it is dropped.
    pub fn push(&mut self, change: Change) -> Result<(), Memory>
        ensures ok { OnOk result (self.new ≡ self.old ++ change ∷ []) }
        ensures err { OnErr result (self.new ≡ self.old) }
    {
        self.items.push(change)?;
        Ok(())
    }
}

fn apply_each(image: &mut Image, changes: &mut [Change])
    requires { CanApplyAll image.old changes.old }
    ensures image { image.new ≡ all_applied image.old changes.old }
    ensures changes { changes.new ≡ inverses image.old changes.old }
{
    for number in 0..changes.len() {
        apply_change(image, &mut changes[number]);
    }
}

fn undo_each(image: &mut Image, changes: &mut [Change])
    requires { CanUndoAll image.old changes.old }
    ensures image { image.new ≡ all_undone image.old changes.old }
    ensures changes { changes.new ≡ inverses_undone image.old changes.old }
{
    let mut number = changes.len();
    while number > 0 {
        number -= 1;
        apply_change(image, &mut changes[number]);
    }
}

/// Applies the changes in order, each of which must be possible at its turn. `undo_all` then leads back.
pub fn apply_all(image: &mut Image, changes: &mut Changes)
    requires { CanApplyAll image.old changes.old }
    ensures image { image.new ≡ all_applied image.old changes.old }
    ensures changes { changes.new ≡ inverses image.old changes.old }
    ensures undo { Undoes image.new changes.new image.old changes.old }
{
    let _ = image.classes();
    let _ = image.methods();
    apply_each(image, &mut changes.items);
}

/// Applies the changes backwards, the last one first, each of which must be possible at its turn. `apply_all` then leads
/// back.
pub fn undo_all(image: &mut Image, changes: &mut Changes)
    requires { CanUndoAll image.old changes.old }
    ensures image { image.new ≡ all_undone image.old changes.old }
    ensures changes { changes.new ≡ inverses_undone image.old changes.old }
    ensures redo { Redoes image.new changes.new image.old changes.old }
{
    let _ = image.classes();
    let _ = image.methods();
    undo_each(image, &mut changes.items);
}
