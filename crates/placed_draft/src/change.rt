// Changes of a draft in which an order of classes is noted.
ghost use Rattle.std.specs.Prelude.{◌≡◌, ◌∷◌, ◌++◌, [], ℕ, true, false, if◌then◌else◌, nat_eq, filter, not, is_some, None, Some, IfNone, IfOk, OnOk};
ghost use Rattle.file_model.specs.Hierarchy.{has_class};
ghost use Rattle.file_model.specs.Changes.{Define, DefineAt, RemoveClass};
ghost use Rattle.file_model.specs.Applied.{changed};
ghost use Rattle.image_draft.specs.Drafted.{change_of, Makes};
ghost use Rattle.placed_draft.specs.Placed.{image_of, with_order, IsWhole, LeavesOrder};

use crate::order::{note, without_name};
use crate::placed_draft::PlacedDraft;
use file_faults::ImageCause;
use image_draft::{Change, Definition};
use rb_base::{Ids, Memory, NameId};
use std::alloc::Global;

impl PlacedDraft {
    /// Makes a change where the names of the classes were noted in their order, or tells why it is refused.
    pub(crate) fn change_ordered(
        &mut self,
        alloc: Global,
        kernel: bool,
        change: Change,
        order: Ids,
    ) -> Result<Option<ImageCause>, Memory>
        requires whole { IsWhole (with_order order self.old) }
        requires taken { self.old.order ≡ None }
        ensures made { IfOk result (λ cause. Makes cause (changed nat_eq kernel (change_of change) (image_of (with_order order self.old))) (image_of self.new)) }
        ensures run { IfOk result (λ cause. IfNone cause (self.new.draft.run ≡ None)) }
        ensures head { IfOk result (λ cause. IfNone cause (self.new.draft.at_head ≡ false)) }
        ensures places { self.new.places ≡ self.old.places }
        ensures whole { IfOk result (λ cause. IfNone cause (IsWhole self.new)) }
    {
        match change {
            Change::Define(definition) => self.define_ordered(alloc, kernel, definition, order),
            Change::Comment { class, text } => {
                self.change_kept(alloc, kernel, Change::Comment { class, text }, order)
            }
            Change::SetClassSide { class, names } => {
                self.change_kept(alloc, kernel, Change::SetClassSide { class, names }, order)
            }
            Change::RemoveMethod {
                class,
                meta,
                selector,
            } => {
                let change = Change::RemoveMethod {
                    class,
                    meta,
                    selector,
                };
                self.change_kept(alloc, kernel, change, order)
            }
            Change::RemoveClass(class) => self.remove_ordered(alloc, kernel, class, order),
        }
    }

    /// Makes a change that leaves the classes where they stand, or tells why it is refused.
    fn change_kept(
        &mut self,
        alloc: Global,
        kernel: bool,
        change: Change,
        order: Ids,
    ) -> Result<Option<ImageCause>, Memory>
        requires whole { IsWhole (with_order order self.old) }
        requires leaves { LeavesOrder (change_of change) }
        ensures made { IfOk result (λ cause. Makes cause (changed nat_eq kernel (change_of change) (image_of (with_order order self.old))) (image_of self.new)) }
        ensures run { IfOk result (λ cause. IfNone cause (self.new.draft.run ≡ None)) }
        ensures head { IfOk result (λ cause. IfNone cause (self.new.draft.at_head ≡ false)) }
        ensures places { self.new.places ≡ self.old.places }
        ensures whole { IfOk result (λ cause. IfNone cause (IsWhole self.new)) }
    {
        note(&mut self.order, order);
        self.draft.change(alloc, kernel, change)
    }

    /// Removes a class and its name from the order, or tells why it is refused.
    fn remove_ordered(
        &mut self,
        alloc: Global,
        kernel: bool,
        class: NameId,
        order: Ids,
    ) -> Result<Option<ImageCause>, Memory>
        requires { IsWhole (with_order order self.old) }
        ensures made { IfOk result (λ cause. Makes cause (changed nat_eq kernel (RemoveClass class) (image_of (with_order order self.old))) (image_of self.new)) }
        ensures run { IfOk result (λ cause. IfNone cause (self.new.draft.run ≡ None)) }
        ensures head { IfOk result (λ cause. IfNone cause (self.new.draft.at_head ≡ false)) }
        ensures places { self.new.places ≡ self.old.places }
        ensures whole { IfOk result (λ cause. IfNone cause (IsWhole self.new)) }
    {
        note(&mut self.order, without_name(order, class));
        self.draft.change(alloc, kernel, Change::RemoveClass(class))
    }

    /// Defines a class, for the first time or again, where the names of the classes were noted, or tells why it is refused.
    fn define_ordered(
        &mut self,
        alloc: Global,
        kernel: bool,
        definition: Definition,
        order: Ids,
    ) -> Result<Option<ImageCause>, Memory>
        requires whole { IsWhole (with_order order self.old) }
        requires taken { self.old.order ≡ None }
        ensures made { IfOk result (λ cause. Makes cause (changed nat_eq kernel (Define definition) (image_of (with_order order self.old))) (image_of self.new)) }
        ensures run { IfOk result (λ cause. IfNone cause (self.new.draft.run ≡ None)) }
        ensures head { IfOk result (λ cause. IfNone cause (self.new.draft.at_head ≡ false)) }
        ensures places { self.new.places ≡ self.old.places }
        ensures whole { IfOk result (λ cause. IfNone cause (IsWhole self.new)) }
    {
        if self.draft.has_class(name_of(&definition)) {
            self.define_there(alloc, kernel, definition, order)
        } else {
            self.define_kept(alloc, kernel, definition, order)
        }
    }

    /// Defines a class again, or tells why it is refused; where the classes stand in the order of the names, it is noted no
    /// more.
    fn define_there(
        &mut self,
        alloc: Global,
        kernel: bool,
        definition: Definition,
        order: Ids,
    ) -> Result<Option<ImageCause>, Memory>
        requires whole { IsWhole (with_order order self.old) }
        requires taken { self.old.order ≡ None }
        requires there { has_class nat_eq self.old.draft.classes definition.name ≡ true }
        ensures made { IfOk result (λ cause. Makes cause (changed nat_eq kernel (Define definition) (image_of (with_order order self.old))) (image_of self.new)) }
        ensures run { IfOk result (λ cause. IfNone cause (self.new.draft.run ≡ None)) }
        ensures head { IfOk result (λ cause. IfNone cause (self.new.draft.at_head ≡ false)) }
        ensures places { self.new.places ≡ self.old.places }
        ensures whole { IfOk result (λ cause. IfNone cause (IsWhole self.new)) }
    {
        if self.stands_in(alloc, &order)? {
            return self.draft.change(alloc, kernel, Change::Define(definition));
        }
        self.define_again(alloc, kernel, definition, order)
    }

    /// Defines a class again and puts the classes in order, or tells why it is refused.
    fn define_again(
        &mut self,
        alloc: Global,
        kernel: bool,
        definition: Definition,
        order: Ids,
    ) -> Result<Option<ImageCause>, Memory>
        requires whole { IsWhole (with_order order self.old) }
        requires taken { self.old.order ≡ None }
        requires there { has_class nat_eq self.old.draft.classes definition.name ≡ true }
        ensures made { IfOk result (λ cause. Makes cause (changed nat_eq kernel (Define definition) (image_of (with_order order self.old))) (image_of self.new)) }
        ensures run { IfOk result (λ cause. IfNone cause (self.new.draft.run ≡ None)) }
        ensures head { IfOk result (λ cause. IfNone cause (self.new.draft.at_head ≡ false)) }
        ensures places { self.new.places ≡ self.old.places }
        ensures whole { IfOk result (λ cause. IfNone cause (IsWhole self.new)) }
    {
        let refusal = self
            .draft
            .change(alloc, kernel, Change::Define(definition))?;
        if refusal.is_some() {
            return Ok(refusal);
        }
        self.settle_order(alloc, order)?;
        Ok(None)
    }

    /// Defines a class and leaves the order of the classes as it is, a new one last, or tells why it is refused.
    pub(crate) fn define_kept(
        &mut self,
        alloc: Global,
        kernel: bool,
        definition: Definition,
        order: Ids,
    ) -> Result<Option<ImageCause>, Memory>
        requires { IsWhole (with_order order self.old) }
        ensures made { IfOk result (λ cause. (place : ℕ) → Makes cause (changed nat_eq kernel (DefineAt definition place) (image_of (with_order order self.old))) (image_of self.new)) }
        ensures run { IfOk result (λ cause. IfNone cause (self.new.draft.run ≡ None)) }
        ensures head { IfOk result (λ cause. IfNone cause (self.new.draft.at_head ≡ false)) }
        ensures places { self.new.places ≡ self.old.places }
        ensures whole { IfOk result (λ cause. IfNone cause (IsWhole self.new)) }
    {
        let name = name_of(&definition);
        let is_there = self.draft.has_class(name);
        let names = with_name(order, is_there, name)?;
        note(&mut self.order, names);
        self.draft.change(alloc, kernel, Change::Define(definition))
    }
}

/// The name of the class that a definition defines.
pub(crate) fn name_of(definition: &Definition) -> NameId
    ensures { result ≡ definition.now.name }
{
    definition.name
}

/// The names with that of a class, unless it is one of them.
fn with_name(order: Ids, is_there: bool, name: NameId) -> Result<Ids, Memory>
    ensures { IfOk result (λ names. names ≡ (if is_there then order else order ++ name ∷ [])) }
{
    let mut names = order;
    if !is_there {
        names.push(name)?;
    }
    Ok(names)
}
