// What is proposed.
ghost use Rattle.std.specs.Prelude.{◌≡◌};
ghost use Rattle.proposals.specs.Proposed.{Proposed, IsNamed};

use certificates::RuleRequest;
use commands::Action;
use std::marker::Model;

/// What a line of a script asks for, beside undo and redo.
#[derive(Drop)]
pub enum Asked {
    /// A command or a composite.
    Action(Action),
    /// All code of users is rewritten by a rule that its certificate is to derive.
    Rule(RuleRequest),
}

/// What is asked for, whose names are among so many first ones of a table. Contracts see both.
pub struct Proposal {
    asked: Asked,
    names: usize,
}

/// It is written out and not derived: a function that gives up a proposal calls this one, and goes over no tree itself.
impl Drop for Proposal {
    fn drop(self) {
        let Proposal { asked: _, names: _ } = self;
    }
}

impl Model for Proposal {
    ghost use Rattle.std.specs.Coded.{codes};
    ghost use Rattle.tree_model.specs.TreeCode.{coded_tree, coded_literal};
    ghost use Rattle.patterns.specs.PatternCode.{coded_pattern};
    ghost use Rattle.proposals.specs.Proposed.{Proposed, IsNamed};

    ghost Value = { Proposed };

    ghost coded = { Prim.hlevel (codes, coded_tree, coded_literal, coded_pattern) };

    ghost view = { λ a. record { asked = a.asked; names = a.names } };

    ghost invariant = { λ a. IsNamed a.names a.asked };
}

impl Proposal {
    /// What is asked for, whose names are among so many.
    pub fn new(asked: Asked, names: usize) -> Proposal
        requires { IsNamed names asked }
        ensures { result ≡ record { asked = asked; names = names } }
    {
        Proposal { asked, names }
    }

    /// What is asked for.
    pub fn asked(&self) -> &Asked
        ensures asked { result.now ≡ self.now.asked }
        ensures named { IsNamed self.now.names self.now.asked }
    {
        &self.asked
    }
}
