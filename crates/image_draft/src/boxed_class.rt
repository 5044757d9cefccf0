// Classes on the heap, which are moved fast.
ghost use Rattle.std.specs.Prelude.{◌≡◌, nat_eq, IfOk};
ghost use Rattle.file_model.specs.Applied.{class_again};

use crate::class_draft::{ClassDraft, Definition};
use rb_base::{Ids, Memory, NameId, Text};
use std::alloc::Global;
use std::marker::Model;

/// A class on the heap: a move of it moves a pointer. Contracts see the class.
#[derive(Drop)]
pub struct BoxedClass {
    inside: Box<ClassDraft>,
}

impl Model for BoxedClass {
    ghost use Rattle.std.specs.Prelude.{ℕ};
    ghost use Rattle.image_model.specs.Image.{ClassOf};

    ghost Value = { ClassOf ℕ };

    ghost view = { λ a. a.inside.value };
}

impl BoxedClass {
    /// Puts a class on the heap.
    pub fn new(alloc: Global, class: ClassDraft) -> Result<BoxedClass, Memory>
        ensures { IfOk result (λ boxed. boxed ≡ class) }
    {
        Ok(BoxedClass {
            inside: Box::new(alloc, class)?,
        })
    }

    /// The class.
    pub fn class(&self) -> &ClassDraft
        ensures { result.now ≡ self.now }
    {
        &self.inside
    }

    /// The class, given away.
    pub fn into_class(self) -> ClassDraft
        ensures { result ≡ self }
    {
        Box::into_inner(self.inside)
    }

    /// The name of the class.
    pub fn name(&self) -> NameId
        ensures { result ≡ self.now.name }
    {
        self.inside.name
    }

    /// Whether the class has a name.
    pub fn is_named(&self, name: NameId) -> bool
        ensures { result ≡ nat_eq name self.now.name }
    {
        name == self.inside.name
    }

    /// The superclass, if there is one.
    pub fn superclass(&self) -> Option<NameId>
        ensures { result ≡ self.now.superclass }
    {
        self.inside.superclass
    }

    /// Gives the class another comment.
    pub fn set_comment(&mut self, comment: Text)
        ensures { self.new ≡ record self.old { comment = comment } }
    {
        self.inside.comment = comment;
    }

    /// Gives the class other class-instance variables.
    pub fn set_class_side(&mut self, names: Ids)
        ensures { self.new ≡ record self.old { class_side = names } }
    {
        self.inside.class_side = names;
    }

    /// Defines the class again, which keeps its comment and its class-instance variables.
    pub fn redefine(&mut self, definition: Definition)
        ensures { self.new ≡ class_again definition self.old }
    {
        self.inside.superclass = definition.superclass;
        self.inside.instance = definition.instance;
        self.inside.shared = definition.shared;
        self.inside.category = definition.category;
    }
}
