// Sets of names.
ghost use Rattle.std.specs.Prelude.{◌≡◌, ℕ, ◌<◌, [], not, true, vec_len, IfOk, OnOk};
ghost use Rattle.image_draft.specs.NameSets.{has, with_name};

use rb_base::{Memory, NameId};
use std::alloc::Global;
use std::marker::Model;

/// Names, found by their numbers. Contracts see a mark for each number.
#[derive(Drop)]
pub struct NameSet {
    marks: Vec<bool>,
}

impl Model for NameSet {
    ghost use Rattle.std.specs.Prelude.{List, Bool};

    ghost Value = { List Bool };

    ghost view = { λ a. a.marks.items };
}

impl NameSet {
    /// No names, which takes no memory.
    pub fn new(alloc: Global) -> NameSet
        ensures { result ≡ [] }
    {
        NameSet {
            marks: Vec::new(alloc),
        }
    }

    /// Whether it takes no memory: then no name is in it.
    pub fn is_empty(&self) -> bool
        ensures { result ≡ true → self.now ≡ [] }
    {
        self.marks.is_empty()
    }

    /// Whether a name is in the set.
    pub fn has(&self, name: NameId) -> bool
        ensures { result ≡ has self.now name }
    {
        self.marks.get(name.0).copied().unwrap_or(false)
    }

    /// Puts a name into the set, and tells whether it is new.
    pub fn note(&mut self, name: NameId) -> Result<bool, Memory>
        ensures fresh { IfOk result (λ fresh. fresh ≡ not (has self.old name)) }
        ensures noted { OnOk result ((m : ℕ) → has self.new m ≡ with_name name (has self.old) m) }
    {
        if self.has(name) {
            return Ok(false);
        }
        make_room(&mut self.marks, name)?;
        mark(&mut self.marks, name);
        Ok(true)
    }
}

/// Makes room for the mark of a name.
fn make_room(marks: &mut Vec<bool>, name: NameId) -> Result<(), Memory>
    ensures room { OnOk result (name < vec_len marks.new) }
    ensures same { OnOk result ((m : ℕ) → has marks.new.items m ≡ has marks.old.items m) }
{
    if name.0 < marks.len() {
        return Ok(());
    }
    let len = name.0.checked_add(1).ok_or(Memory)?;
    marks.resize(len, false)?;
    Ok(())
}

/// Marks a name.
fn mark(marks: &mut Vec<bool>, name: NameId)
    requires { name < vec_len marks.old }
    ensures { (m : ℕ) → has marks.new.items m ≡ with_name name (has marks.old.items) m }
{
    marks[name.0] = true;
}
