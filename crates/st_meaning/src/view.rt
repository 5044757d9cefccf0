// What is seen of values.
ghost use Rattle.std.specs.Prelude.{◌≡◌};

use crate::text::SharedText;
use std::marker::Model;

/// What is seen of a value inside an array. Contracts see it as abstract data, an `Atom` of runs.
#[derive(Drop)]
pub struct Atom {
    /// What the atom is.
    pub kind: AtomKind,
}

/// What an atom is.
#[derive(Drop)]
pub enum AtomKind {
    Nil,
    True,
    False,
    Int(i64),
    /// A character, by its byte.
    Char(u8),
    /// A string, by its bytes.
    Str(SharedText),
    /// A symbol, by its bytes.
    Sym(SharedText),
    /// A class, by its name.
    Class(SharedText),
    /// An object, by the name of its class.
    Object(SharedText),
    /// An array, by its length.
    Array(usize),
    /// A closure.
    Block,
    Transcript,
}

/// What is seen of a value. Contracts see it as abstract data, a `View` of runs.
#[derive(Drop)]
pub struct View {
    /// What the view is.
    pub kind: ViewKind,
}

/// What a view is.
#[derive(Drop)]
pub enum ViewKind {
    /// Of any value but an array.
    One(Atom),
    /// Of an array its elements.
    Items(Vec<Atom>),
}

impl Model for Atom {
    ghost use Rattle.run_model.specs.Values as run;

    ghost Value = { run.Atom };

    ghost use Rattle.st_meaning.specs.AtomView.{atom_of};

    ghost view = { λ a. atom_of a.kind };
}

impl Model for View {
    ghost use Rattle.run_model.specs.Values as run;

    ghost Value = { run.View };

    ghost use Rattle.st_meaning.specs.ViewView.{view_from};

    ghost view = { λ a. view_from a.kind };
}
