// What names stand for.
ghost use Rattle.std.specs.Prelude.{◌≡◌};
ghost use Rattle.image_model.specs.Means.{variable};
ghost use Rattle.st_program.specs.Meaning.{meaning_from};
ghost use Rattle.st_program.specs.Definers.{kind_from, side_of};

use st_meaning::SharedText;

/// What a name stands for in the methods of a class and a side, where neither they nor their blocks declare it.
#[derive(Drop)]
pub enum Meaning {
    /// An instance variable.
    Instance {
        /// The name of the class that defines it.
        definer: SharedText,
    },
    /// A class-instance variable.
    ClassSide {
        /// The name of the class that defines it.
        definer: SharedText,
    },
    /// A class variable.
    Shared {
        /// The name of the class that defines it.
        definer: SharedText,
    },
    /// A class, by its name.
    Class {
        name: SharedText,
    },
    /// `Transcript`.
    Transcript,
    /// Nothing.
    Undeclared,
}

/// A kind of variables of a class.
#[derive(Clone, Copy, Drop)]
pub enum Kind {
    Instance,
    ClassSide,
    Shared,
}

/// The kind of the variables that only one side sees.
pub(crate) fn side(meta: bool) -> Kind
    ensures { result ≡ side_of meta }
{
    if meta {
        Kind::ClassSide
    } else {
        Kind::Instance
    }
}

impl Meaning {
    /// A variable of a kind.
    pub(crate) fn variable(kind: Kind, definer: SharedText) -> Meaning
        ensures { meaning_from result ≡ variable (kind_from kind) definer }
    {
        match kind {
            Kind::Instance => Meaning::Instance { definer },
            Kind::ClassSide => Meaning::ClassSide { definer },
            Kind::Shared => Meaning::Shared { definer },
        }
    }
}
