// What a name may stand for, and the kinds of variables.
ghost use Rattle.std.specs.Prelude.{◌≡◌};
ghost use Rattle.image_model.specs.Means.{side_kind};
ghost use Rattle.name_meanings.specs.Meanings.{kind_of};

use rb_base::NameId;

/// The kinds of variables that a class defines.
#[derive(Clone, Copy, Debug, PartialEq, Eq)]
pub enum VariableKind {
    /// An instance variable, which methods of the instance side see.
    Instance,
    /// A class-instance variable, which methods of the class side see.
    ClassSide,
    /// A class variable, which both sides see.
    Shared,
}

/// What a name stands for at a place.
#[derive(Clone, Copy, Debug, PartialEq, Eq)]
pub enum Meaning {
    /// A pseudo-variable.
    Pseudo,
    /// An argument of the method or a parameter of a block. `scope` is how many steps of the path to the place lead to
    /// that block, from 1; it is 0 for the method.
    Argument {
        scope: usize,
    },
    /// A temporary of the method, the do-it or a block, with `scope` as above.
    Temporary {
        scope: usize,
    },
    /// A variable of a class.
    Variable {
        kind: VariableKind,
        /// The name of the class that defines it.
        definer: NameId,
    },
    /// A class, by its name.
    Class(NameId),
    /// `Transcript`.
    Transcript,
    /// Nothing.
    Undeclared,
}

/// The kind of the variables that only one side sees.
pub(crate) fn side(meta: bool) -> VariableKind
    ensures { kind_of result ≡ side_kind meta }
{
    if meta {
        VariableKind::ClassSide
    } else {
        VariableKind::Instance
    }
}
