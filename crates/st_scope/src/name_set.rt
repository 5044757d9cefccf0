// Sets of names in the order in which they came.
ghost use Rattle.std.specs.Prelude.{◌≡◌, [], length, take, nat_eq, OnOk};
ghost use Rattle.scope_model.specs.Scope.{is_among};
ghost use Rattle.st_scope.specs.NameLists.{with_name};

use indexmap::IndexSet;
use rb_base::{Memory, NameId};
use std::alloc::Global;
use std::marker::Model;

/// Names, each once, in the order in which they came. Contracts see the list of their numbers.
#[derive(Drop)]
pub(crate) struct NameSet {
    set: IndexSet<usize>,
}

impl Model for NameSet {
    ghost use Rattle.std.specs.Prelude.{ℕ, List};

    ghost Value = { List ℕ };

    ghost view = { λ a. a.set.keys };
}

impl NameSet {
    /// No names.
    pub(crate) fn new(alloc: Global) -> NameSet
        ensures { result ≡ [] }
    {
        NameSet {
            set: IndexSet::new(alloc),
        }
    }

    /// How many names there are.
    pub(crate) fn len(&self) -> usize
        ensures { result ≡ length self.now }
    {
        self.set.len()
    }

    /// Whether the name is there.
    pub(crate) fn contains(&self, name: NameId) -> bool
        ensures { result ≡ is_among nat_eq self.now name }
    {
        self.set.contains(&name.0)
    }

    /// Appends the name, if it is not there yet.
    pub(crate) fn insert(&mut self, name: NameId) -> Result<(), Memory>
        ensures { OnOk result (self.new ≡ with_name self.old name) }
    {
        self.set.insert(name.0)?;
        Ok(())
    }

    /// Keeps the first `len` names.
    pub(crate) fn truncate(&mut self, len: usize)
        ensures { self.new ≡ take len self.old }
    {
        self.set.truncate(len);
    }

    /// The numbers of the names.
    pub(crate) fn numbers(&self) -> &[usize]
        ensures { result.now ≡ self.now }
    {
        self.set.as_slice()
    }
}
