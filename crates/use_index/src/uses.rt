// Uses of names.
ghost use Rattle.std.specs.Prelude.{◌≡◌, [], ◌∷◌, ◌++◌, OnOk, OnErr};
ghost use Rattle.use_index.specs.Uses.{answers};

use rb_base::{Memory, NameId};
use st_tree::Path;
use std::alloc::Global;
use std::marker::Model;

/// In which way a name is used.
#[derive(Clone, Copy, Debug)]
pub enum Way {
    /// A node sends it.
    Sent,
    /// It is the selector of the method.
    Implemented,
    /// A node reads or assigns it, and the code does not declare it.
    Free,
    /// A node reads or assigns it, and the code declares it.
    Bound,
    /// A block declares it, or the method or do-it itself.
    Declared,
}

/// Which uses of a name are looked for.
#[derive(Clone, Copy, Debug)]
pub enum Sought {
    /// Nodes that send it.
    Sent,
    /// Methods of which it is the selector.
    Implemented,
    /// Nodes that read or assign it where the code does not declare it.
    Free,
    /// Nodes that read, assign or declare it, and methods and do-its that declare it themselves.
    Named,
}

impl Sought {
    /// Whether uses in the way are looked for.
    pub fn answers(self, way: Way) -> bool
        ensures { result ≡ answers self way }
    {
        match self {
            Sought::Sent => match way {
                Way::Sent => true,
                Way::Implemented | Way::Free | Way::Bound | Way::Declared => false,
            },
            Sought::Implemented => match way {
                Way::Implemented => true,
                Way::Sent | Way::Free | Way::Bound | Way::Declared => false,
            },
            Sought::Free => match way {
                Way::Free => true,
                Way::Sent | Way::Implemented | Way::Bound | Way::Declared => false,
            },
            Sought::Named => match way {
                Way::Free | Way::Bound | Way::Declared => true,
                Way::Sent | Way::Implemented => false,
            },
        }
    }
}

/// A use of a name: in which way, and the path of the node, which is empty for the method or do-it itself.
#[derive(Drop)]
pub struct UseAt {
    pub name: NameId,
    pub way: Way,
    pub path: Path,
}

/// Uses in order. Contracts see the list.
#[derive(Drop)]
pub struct Uses {
    items: Vec<UseAt>,
}

impl Model for Uses {
    ghost use Rattle.std.specs.Prelude.{List};
    ghost use Rattle.use_index.specs.declared.uses.UseAt.{UseAt};

    ghost Value = { List UseAt };

    ghost view = { λ a. a.items.items };
}

impl Uses {
    /// No uses, which takes no memory.
    pub fn new(alloc: Global) -> Uses
        ensures { result ≡ [] }
    {
        Uses {
            items: Vec::new(alloc),
        }
    }

    /// The uses.
    pub fn as_slice(&self) -> &[UseAt]
        ensures { result.now ≡ self.now }
    {
        &self.items
    }

    /// Puts a use at the end.
    pub fn push(&mut self, one: UseAt) -> Result<(), Memory>
        ensures ok { OnOk result (self.new ≡ self.old ++ one ∷ []) }
        ensures err { OnErr result (self.new ≡ self.old) }
    {
        self.items.push(one)?;
        Ok(())
    }
}
