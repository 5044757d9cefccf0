// Changes that chunks make, and runs of methods.
use crate::class_draft::Definition;
use rb_base::{Ids, NameId, Text};
use std::marker::Model;

/// A change of the classes or the methods.
#[derive(Drop)]
pub enum Change {
    /// A class is defined, for the first time or again.
    Define(Definition),
    /// A class has another comment.
    Comment {
        class: NameId,
        text: Text,
    },
    /// A class has other class-instance variables.
    SetClassSide {
        class: NameId,
        names: Ids,
    },
    /// The method of a class, a side and a selector is removed, if it is there.
    RemoveMethod {
        class: NameId,
        meta: bool,
        selector: NameId,
    },
    /// A class is removed with its methods.
    RemoveClass(NameId),
}

/// The methods that follow are of this class, this side and this protocol.
#[derive(Drop)]
pub struct Run {
    pub class: NameId,
    /// Whether they are methods of the class side.
    pub meta: bool,
    pub protocol: Text,
}

impl Model for Run {
    ghost use Rattle.std.specs.Prelude.{ℕ};
    ghost use Rattle.file_model.specs.Changes.{RunOf};

    ghost Value = { RunOf ℕ };

    ghost view = { λ a. record {
      class = a.class;
      meta = a.meta;
      protocol = a.protocol;
    } };

    ghost inverse = { λ r. record {
      class = r.class;
      meta = r.meta;
      protocol = r.protocol;
    } };
}
