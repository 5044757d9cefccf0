// Classes while a file-out is read, and definitions of them.
use rb_base::{Ids, NameId, Text};
use std::marker::Model;

/// A class while a file-out is read.
#[derive(Drop)]
pub struct ClassDraft {
    pub name: NameId,
    /// The class above it, if there is one.
    pub superclass: Option<NameId>,
    /// The instance variables that it adds to those of its superclass, in order.
    pub instance: Ids,
    /// Its class variables, in order.
    pub shared: Ids,
    /// The class-instance variables that it adds to those of its superclass, in order.
    pub class_side: Ids,
    /// The category under which browsers list it.
    pub category: Text,
    pub comment: Text,
    /// Whether it is one of the kernel.
    pub kernel: bool,
}

impl Model for ClassDraft {
    ghost use Rattle.std.specs.Prelude.{ℕ};
    ghost use Rattle.image_model.specs.Image.{ClassOf};

    ghost Value = { ClassOf ℕ };

    ghost view = { λ a. record {
      name = a.name;
      superclass = a.superclass;
      instance = a.instance;
      shared = a.shared;
      class_side = a.class_side;
      category = a.category;
      comment = a.comment;
      kernel = a.kernel;
    } };

    ghost inverse = { λ c. record {
      name = c.name;
      superclass = c.superclass;
      instance = c.instance;
      shared = c.shared;
      class_side = c.class_side;
      category = c.category;
      comment = c.comment;
      kernel = c.kernel;
    } };
}

/// A definition of a class, for the first time or again (Goldberg and Robson 1983, "Creating Classes").
#[derive(Drop)]
pub struct Definition {
    pub name: NameId,
    /// The class above it, if there is to be one.
    pub superclass: Option<NameId>,
    /// The instance variables that it adds to those of its superclass, in order.
    pub instance: Ids,
    /// Its class variables, in order.
    pub shared: Ids,
    /// The category under which browsers list it.
    pub category: Text,
}

impl Model for Definition {
    ghost use Rattle.std.specs.Prelude.{ℕ};
    ghost use Rattle.file_model.specs.Changes.{DefinitionOf};

    ghost Value = { DefinitionOf ℕ };

    ghost view = { λ a. record {
      name = a.name;
      superclass = a.superclass;
      instance = a.instance;
      shared = a.shared;
      category = a.category;
    } };
}
