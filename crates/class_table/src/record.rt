// The records of an image, and the numbers of their slots.
ghost use Rattle.std.specs.Prelude.{◌≡◌, ◌∷◌, ◌++◌, [], length, OnOk, OnErr};

use rb_base::{Ids, Memory, NameId, Text};
use st_tree::{Method, Sequence};
use std::alloc::Global;
use std::marker::Model;

/// The number of a class's slot, from 0. Contracts see the number.
#[derive(Clone, Copy, Debug)]
pub struct ClassId(pub usize);

impl Model for ClassId {
    ghost use Rattle.std.specs.Prelude.{ℕ};

    ghost Value = { ℕ };

    ghost view = { λ a. a.0 };

    ghost inverse = { λ n. record { 0 = n } };
}

impl PartialEq for ClassId {
    ghost use Rattle.std.specs.Prelude.{◌==◌};
    ghost use Rattle.std.proofs.Common.{rules};
    ghost use Rattle.std.specs.Cmp.Rules.{comparing};

    ghost eq = { λ a b. a == b };

    ghost laws = { Prim.search (comparing, rules) };

    fn eq(&self, other: &ClassId) -> bool {
        self.0 == other.0
    }
}

impl Eq for ClassId {
    ghost use Rattle.std.proofs.Common.{rules};
    ghost use Rattle.std.specs.Cmp.Rules.{comparing};

    ghost laws = { Prim.search (comparing, rules) };
}

/// The number of a method's slot, from 0. Contracts see the number.
#[derive(Clone, Copy, Debug)]
pub struct MethodSlot(pub usize);

impl Model for MethodSlot {
    ghost use Rattle.std.specs.Prelude.{ℕ};

    ghost Value = { ℕ };

    ghost view = { λ a. a.0 };

    ghost inverse = { λ n. record { 0 = n } };
}

impl PartialEq for MethodSlot {
    ghost use Rattle.std.specs.Prelude.{◌==◌};
    ghost use Rattle.std.proofs.Common.{rules};
    ghost use Rattle.std.specs.Cmp.Rules.{comparing};

    ghost eq = { λ a b. a == b };

    ghost laws = { Prim.search (comparing, rules) };

    fn eq(&self, other: &MethodSlot) -> bool {
        self.0 == other.0
    }
}

impl Eq for MethodSlot {
    ghost use Rattle.std.proofs.Common.{rules};
    ghost use Rattle.std.specs.Cmp.Rules.{comparing};

    ghost laws = { Prim.search (comparing, rules) };
}

/// A class.
pub struct ClassRec {
    pub name: NameId,
    /// The class above it; `None` for `Object` alone.
    pub superclass: Option<ClassId>,
    /// The instance variables that it defines itself.
    pub instance: Ids,
    /// The class variables that it defines itself.
    pub shared: Ids,
    /// The class-instance variables that it defines itself.
    pub class_side: Ids,
    pub category: Text,
    pub comment: Text,
    /// Whether it is one of the kernel.
    pub kernel: bool,
}

// Written out, so that for a proof the end of a class is one call.
impl Drop for ClassRec {
    fn drop(self) {
        let ClassRec {
            name: _,
            superclass: _,
            instance: _,
            shared: _,
            class_side: _,
            category: _,
            comment: _,
            kernel: _,
        } = self;
    }
}

/// A method.
pub struct MethodRec {
    pub class: ClassId,
    /// Whether it is a method of the class side.
    pub meta: bool,
    pub protocol: Text,
    /// The text that spells the tree.
    pub source: Text,
    pub tree: Method,
    /// Whether it is one of the kernel.
    pub kernel: bool,
}

// Written out, so that for a proof the end of a method is one call.
impl Drop for MethodRec {
    fn drop(self) {
        let MethodRec {
            class: _,
            meta: _,
            protocol: _,
            source: _,
            tree: _,
            kernel: _,
        } = self;
    }
}

/// Statements that are run by themselves.
pub struct DoIt {
    /// The text that spells the body.
    pub source: Text,
    pub body: Sequence,
}

// Written out, so that for a proof the end of a do-it is one call.
impl Drop for DoIt {
    fn drop(self) {
        let DoIt { source: _, body: _ } = self;
    }
}

/// What is known of a method without its tree.
#[derive(Clone, Copy, Debug)]
pub struct MethodInfo<'a> {
    pub class: ClassId,
    /// Whether it is a method of the class side.
    pub meta: bool,
    pub selector: NameId,
    pub protocol: &'a [u8],
    pub source: &'a [u8],
    /// Whether it is one of the kernel.
    pub kernel: bool,
}

/// Where code stands in an image.
#[derive(Clone, Copy, Debug)]
pub enum Place {
    Method(MethodSlot),
    /// The do-it of a number, from 0.
    DoIt(usize),
}

/// A slot of an image.
#[derive(Clone, Copy, Debug)]
pub enum Slot {
    Class(ClassId),
    Method(MethodSlot),
}

/// Classes in order. Contracts see the list of the numbers of their slots.
#[derive(Drop)]
pub struct ClassIds {
    items: Vec<ClassId>,
}

impl Model for ClassIds {
    ghost use Rattle.std.specs.Prelude.{ℕ, List};

    ghost Value = { List ℕ };

    ghost view = { λ a. a.items.items };
}

impl ClassIds {
    /// No classes, which takes no memory.
    pub fn new(alloc: Global) -> ClassIds
        ensures { result ≡ [] }
    {
        ClassIds {
            items: Vec::new(alloc),
        }
    }

    /// The classes.
    pub fn as_slice(&self) -> &[ClassId]
        ensures { result.now ≡ self.now }
    {
        self.items.as_slice()
    }

    /// How many classes there are.
    pub fn len(&self) -> usize
        ensures { result ≡ length self.now }
    {
        self.items.len()
    }

    /// Appends a class.
    pub fn push(&mut self, class: ClassId) -> Result<(), Memory>
        ensures ok { OnOk result (self.new ≡ self.old ++ class ∷ []) }
        ensures err { OnErr result (self.new ≡ self.old) }
    {
        self.items.push(class)?;
        Ok(())
    }

    /// Appends classes.
    pub fn push_slice(&mut self, classes: &[ClassId]) -> Result<(), Memory>
        ensures ok { OnOk result (self.new ≡ self.old ++ classes.now) }
        ensures err { OnErr result (self.new ≡ self.old) }
    {
        self.items.extend_from_slice(classes)?;
        Ok(())
    }
}
