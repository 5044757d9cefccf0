// The classes of a draft.
ghost use Rattle.std.specs.Prelude.{◌≡◌, ℕ, [], filter, not, false, true, nat_eq, is_some, IfNone, IfSome, IfOk};
ghost use Rattle.image_model.specs.Valid.{SuperclassesStandBefore};
ghost use Rattle.file_model.specs.Causes.{first_cause};
ghost use Rattle.file_model.specs.Hierarchy.{has_class, has_subclass};
ghost use Rattle.file_model.specs.Refusals.{definition_refusals, comment_refusals, class_side_refusals, class_removal_refusals};
ghost use Rattle.file_model.specs.Applied.{defined, with_definition, with_comment, with_class_side};
ghost use Rattle.image_draft.specs.Early.{told};
ghost use Rattle.image_draft.specs.Names.{NamesDiffer};
ghost use Rattle.image_draft.specs.Once.{AreSound};

use crate::arrange::listed;
use crate::boxed_class::BoxedClass;
use crate::changes::{change_class_side, change_comment};
use crate::class_draft::{ClassDraft, Definition};
use crate::class_list::ClassList;
use crate::define::define_in_order;
use crate::found;
use crate::owners::{Owners, owners_of};
use crate::refusals::class_removal_refusal;
use file_faults::ImageCause;
use rb_base::{Ids, Memory, NameId, Text};
use std::alloc::Global;
use std::marker::Model;

/// The classes while a file-out is read, in order. No two have one name, each superclass stands before its subclasses, and no
/// variable stands twice on a chain. Contracts see the list.
#[derive(Drop)]
pub struct Classes {
    list: ClassList,
    owners: Owners,
}

impl Model for Classes {
    ghost use Rattle.std.specs.Prelude.{ℕ, List};
    ghost use Rattle.image_model.specs.Image.{ClassOf};
    ghost use Rattle.image_draft.specs.Once.{AreSound};
    ghost use Rattle.image_draft.specs.Owners.{AreOwned};

    ghost Value = { List (ClassOf ℕ) };

    ghost view = { λ a. a.list };

    ghost invariant = { λ a. (AreSound a.list) × (AreOwned a.owners a.list) };
}

impl Classes {
    /// No classes, which takes no memory.
    pub fn new(alloc: Global) -> Classes
        ensures { result ≡ [] }
    {
        Classes {
            list: ClassList::new(alloc),
            owners: Owners::new(alloc),
        }
    }

    /// Whether there is a class of a name.
    pub fn has(&self, name: NameId) -> bool
        ensures { result ≡ has_class nat_eq self.now name }
    {
        found::has_class(&self.list, name)
    }

    /// The classes in order.
    pub fn as_slice(&self) -> &[BoxedClass]
        ensures { result.now ≡ self.now }
    {
        self.list.as_slice()
    }

    /// Takes the classes out, and leaves none.
    pub fn take_items(&mut self) -> Result<Vec<ClassDraft>, Memory>
        ensures taken { IfOk result (λ items. items.items ≡ self.old) }
        ensures sound { AreSound self.old }
        ensures left { self.new ≡ [] }
    {
        self.list.take_all().into_items()
    }

    /// These classes.
    pub fn from_items(alloc: Global, items: Vec<ClassDraft>) -> Result<Classes, Memory>
        requires { AreSound items.items }
        ensures { IfOk result (λ classes. classes ≡ items.items) }
    {
        let list = listed(alloc, items)?;
        let owners = owners_of(alloc, list.as_slice())?;
        Ok(Classes { list, owners })
    }

    /// Defines a class, for the first time or again, and puts the classes in order, or tells why it can not be defined;
    /// then, and on want of memory, nothing is said of the classes but how they stand.
    pub fn define(
        &mut self,
        alloc: Global,
        kernel: bool,
        definition: Definition,
    ) -> Result<Option<ImageCause>, Memory>
        ensures cause { IfOk result (λ cause. told cause ≡ first_cause (definition_refusals nat_eq self.old definition (with_definition nat_eq kernel definition self.old))) }
        ensures some { IfOk result (λ cause. is_some cause ≡ is_some (first_cause (definition_refusals nat_eq self.old definition (with_definition nat_eq kernel definition self.old)))) }
        ensures changed { IfOk result (λ cause. IfNone cause (self.new ≡ defined nat_eq kernel definition self.old)) }
        ensures differ { NamesDiffer self.new }
        ensures before { SuperclassesStandBefore self.new }
        ensures kept { IfOk result (λ cause. IfNone cause ((n : ℕ) → has_class nat_eq self.old n ≡ true → has_class nat_eq self.new n ≡ true)) }
    {
        define_in_order(alloc, &mut self.list, &mut self.owners, kernel, definition)
    }

    /// Gives the class of a name another comment, or tells why it can not be given; then nothing is changed.
    pub fn comment(&mut self, name: NameId, text: Text) -> Option<ImageCause>
        ensures cause { told result ≡ first_cause (comment_refusals nat_eq self.old name) }
        ensures some { is_some result ≡ is_some (first_cause (comment_refusals nat_eq self.old name)) }
        ensures changed { IfNone result (self.new ≡ with_comment nat_eq name text self.old) }
        ensures unchanged { IfSome result (λ _. self.new ≡ self.old) }
        ensures differ { NamesDiffer self.new }
        ensures before { SuperclassesStandBefore self.new }
        ensures kept { IfNone result ((n : ℕ) → has_class nat_eq self.old n ≡ true → has_class nat_eq self.new n ≡ true) }
    {
        change_comment(&mut self.list, name, text)
    }

    /// Gives the class of a name other class-instance variables, or tells why it can not have them; then, and on want of
    /// memory, it may have them too.
    pub fn set_class_side(
        &mut self,
        alloc: Global,
        name: NameId,
        names: Ids,
    ) -> Result<Option<ImageCause>, Memory>
        ensures cause { IfOk result (λ cause. told cause ≡ first_cause (class_side_refusals nat_eq self.old name names (with_class_side nat_eq name names self.old))) }
        ensures some { IfOk result (λ cause. is_some cause ≡ is_some (first_cause (class_side_refusals nat_eq self.old name names (with_class_side nat_eq name names self.old)))) }
        ensures changed { IfOk result (λ cause. IfNone cause (self.new ≡ with_class_side nat_eq name names self.old)) }
        ensures differ { NamesDiffer self.new }
        ensures before { SuperclassesStandBefore self.new }
        ensures kept { IfOk result (λ cause. IfNone cause ((n : ℕ) → has_class nat_eq self.old n ≡ true → has_class nat_eq self.new n ≡ true)) }
    {
        change_class_side(alloc, &mut self.list, &mut self.owners, name, names)
    }

    /// Why the class of a name can not be removed, if so.
    pub fn removal_refusal(&self, name: NameId) -> Option<ImageCause>
        ensures cause { told result ≡ first_cause (class_removal_refusals nat_eq self.now name) }
        ensures some { is_some result ≡ is_some (first_cause (class_removal_refusals nat_eq self.now name)) }
        ensures free { IfNone result (has_subclass nat_eq self.now name ≡ false) }
    {
        class_removal_refusal(&self.list, name)
    }

    /// Takes the class of a name away, which is the superclass of none.
    pub fn remove(&mut self, name: NameId)
        requires { has_subclass nat_eq self.old name ≡ false }
        ensures removed { self.new ≡ filter (λ c. not (nat_eq name c.name)) self.old }
        ensures differ { NamesDiffer self.new }
        ensures before { SuperclassesStandBefore self.new }
        ensures kept { (n : ℕ) → nat_eq name n ≡ false → has_class nat_eq self.old n ≡ true → has_class nat_eq self.new n ≡ true }
    {
        self.list.remove(name);
    }
}
