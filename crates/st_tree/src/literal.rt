// Literals.
ghost use Rattle.std.specs.Prelude.{◌≡◌, [], ◌∷◌, ◌++◌, length, OnOk, OnErr};

use rb_base::{Memory, NameId, Text};
use std::alloc::Global;
use std::marker::Model;

/// A literal. Contracts see it as abstract data, a `LiteralOf ℕ`.
#[cycle(literal)]
#[derive(Drop)]
pub struct Literal {
    /// What the literal is.
    pub kind: LiteralKind,
}

/// What a literal is.
#[cycle(literal)]
#[derive(Drop)]
pub enum LiteralKind {
    /// A number, by the text of its numeral.
    Number { text: Text },
    /// A string, by its bytes.
    Str { text: Text },
    /// A symbol, by its bytes.
    Symbol { text: Text },
    /// A character, by its code from 0 to 255.
    Char { byte: u8 },
    /// An array of literals.
    Array { items: Literals },
    /// A byte array, whose items are numbers.
    Bytes { items: Literals },
    /// `nil`, `true` or `false` inside an array.
    Word { name: NameId },
}

/// Literals in order. Contracts see a list.
#[cycle(literal)]
pub struct Literals {
    pub(crate) items: Vec<Literal>,
}

// Written out, so that for a proof the end of literals is one call.
impl Drop for Literals {
    #[cycle(literal)]
    fn drop(self) {
        let Literals { items: _ } = self;
    }
}

impl Model for Literal {
    ghost use Rattle.std.specs.Prelude.{ℕ};
    ghost use Rattle.tree_model.specs.Tree.{LiteralOf};
    ghost use Rattle.tree_model.specs.TreeCode.{coded_literal};

    ghost Value = { LiteralOf ℕ };

    ghost coded = { coded_literal };

    ghost use Rattle.tree_model.specs.Measure.{literal_weight};
    ghost use Rattle.st_tree.specs.LiteralView.{literal_of};

    ghost view = { λ a. literal_of a.kind };

    ghost size = { literal_weight };
}

impl Model for Literals {
    ghost use Rattle.std.specs.Prelude.{ℕ, List};
    ghost use Rattle.std.specs.Coded.{coded_list};
    ghost use Rattle.tree_model.specs.Tree.{LiteralOf};
    ghost use Rattle.tree_model.specs.TreeCode.{coded_literal};

    ghost Value = { List (LiteralOf ℕ) };

    ghost coded = { coded_list coded_literal };

    ghost use Rattle.tree_model.specs.Tree.{literals_of};
    ghost use Rattle.tree_model.specs.Measure.{literals_weight};

    ghost view = { λ a. a.items.items };

    ghost size = { λ ls. literals_weight (literals_of ls) };

    ghost use Rattle.std.proofs.Common.{arith};
    ghost use Rattle.st_tree.specs.ListFalls.{most_le-literals_weight};

    ghost size_decreases = { λ a h. omega (arith, most_le-literals_weight a.items.items) };
}

impl Literals {
    /// No literals, which takes no memory.
    pub fn new(alloc: Global) -> Literals
        ensures { result ≡ [] }
    {
        Literals {
            items: Vec::new(alloc),
        }
    }

    /// The list of these literals, which are not copied.
    pub fn from_vec(items: Vec<Literal>) -> Literals
        ensures { result ≡ items.items }
    {
        Literals { items }
    }

    /// The literals, which are not copied.
    pub fn into_vec(self) -> Vec<Literal>
        ensures { result.items ≡ self }
    {
        let Literals { items } = self;
        items
    }

    /// The literals.
    pub fn as_slice(&self) -> &[Literal]
        ensures { result.now ≡ self.now }
    {
        self.items.as_slice()
    }

    /// How many literals there are.
    pub fn len(&self) -> usize
        ensures { result ≡ length self.now }
    {
        self.items.len()
    }

    /// Appends a literal; on want of memory it is dropped.
    pub fn push(&mut self, item: Literal) -> Result<(), Memory>
        ensures ok { OnOk result (self.new ≡ self.old ++ item ∷ []) }
        ensures err { OnErr result (self.new ≡ self.old) }
    {
        self.items.push(item)?;
        Ok(())
    }
}
