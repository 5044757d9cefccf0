// Paths into a tree.
ghost use Rattle.std.specs.Prelude.{◌≡◌, [], ◌∷◌, ◌++◌, length, IfOk, OnOk, OnErr, IsTrue, ◌↔◌};

use rb_base::Memory;
use std::alloc::Global;
use std::marker::Model;

/// The steps from a method, a do-it or a node down to a node in it. A step into a sequence or a block is the number of
/// a statement, into a message or a cascade 0 for the receiver and then the arguments in text order, into a brace array
/// the number of an item, into an assignment or a return 0. Contracts see a list of numbers.
pub struct Path {
    steps: Vec<usize>,
}

// Written out, so that for a proof the end of a path is one call.
impl Drop for Path {
    fn drop(self) {
        let Path { steps: _ } = self;
    }
}

impl Model for Path {
    ghost use Rattle.std.specs.Prelude.{ℕ, List};

    ghost Value = { List ℕ };

    ghost view = { λ a. a.steps.items };
}

/// A part of a method or a do-it that a refactoring speaks of.
#[derive(Drop)]
pub enum Part {
    /// The node where the path leads.
    Expression {
        path: Path,
    },
    /// `count` statements from the number `first` on, counted from 0, of the sequence where the path leads. The empty
    /// path leads to the body itself, any other to a block.
    Run {
        path: Path,
        first: usize,
        count: usize,
    },
}

impl Path {
    /// No steps, which takes no memory.
    pub fn new(alloc: Global) -> Path
        ensures { result ≡ [] }
    {
        Path {
            steps: Vec::new(alloc),
        }
    }

    /// The list of these steps, which are not copied.
    pub fn from_vec(steps: Vec<usize>) -> Path
        ensures { result ≡ steps.items }
    {
        Path { steps }
    }

    /// The steps, which are not copied.
    pub fn into_vec(self) -> Vec<usize>
        ensures { result.items ≡ self }
    {
        let Path { steps } = self;
        steps
    }

    /// The steps.
    pub fn as_slice(&self) -> &[usize]
        ensures { result.now ≡ self.now }
    {
        self.steps.as_slice()
    }

    /// How many steps there are.
    pub fn len(&self) -> usize
        ensures { result ≡ length self.now }
    {
        self.steps.len()
    }

    /// Appends a step.
    pub fn push(&mut self, step: usize) -> Result<(), Memory>
        ensures ok { OnOk result (self.new ≡ self.old ++ step ∷ []) }
        ensures err { OnErr result (self.new ≡ self.old) }
    {
        self.steps.push(step)?;
        Ok(())
    }

    /// A copy.
    pub fn try_copy(&self, alloc: Global) -> Result<Path, Memory>
        ensures { IfOk result (λ path. path ≡ self.now) }
    {
        Ok(Path {
            steps: Vec::from_slice(alloc, self.as_slice())?,
        })
    }

    /// Whether both have the same steps.
    pub fn same(&self, other: &Path) -> bool
        ensures { IsTrue result ↔ (self.now ≡ other.now) }
    {
        self.steps == other.steps
    }
}
