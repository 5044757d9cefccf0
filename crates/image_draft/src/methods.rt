// The methods of a draft.
ghost use Rattle.std.specs.Prelude.{◌≡◌, [], filter, map, not, nat_eq, is_some, IfNone, IfOk};
ghost use Rattle.image_model.specs.Lookup as lookup;
ghost use Rattle.st_tree.specs.View.{method_of};
ghost use Rattle.file_model.specs.Causes.{first_cause};
ghost use Rattle.file_model.specs.Refusals as refusals;
ghost use Rattle.file_model.specs.Refusals.{method_refusals};
ghost use Rattle.file_model.specs.Applied.{with_method};
ghost use Rattle.image_draft.specs.Early.{told};
ghost use Rattle.image_draft.specs.Fronts.{in_front};
ghost use Rattle.image_draft.specs.Entries.{entry_of, run_of};
ghost use Rattle.image_draft.specs.MethodSlots.{those_there};

use crate::fronts::kernel_slots_first;
use crate::method_draft::MethodDraft;
use crate::method_slots::{MethodKey, MethodSlots, those_there};
use file_faults::ImageCause;
use rb_base::{Memory, NameId};
use std::alloc::Global;
use std::marker::Model;
use std::mem::replace;

/// The methods while a file-out is read, in order. No two have one class, one side and one selector. Contracts see the list.
#[derive(Drop)]
pub struct Methods {
    slots: MethodSlots,
}

impl Model for Methods {
    ghost use Rattle.std.specs.Prelude.{List};
    ghost use Rattle.image_draft.specs.declared.method_draft.MethodDraft.{MethodDraft};
    ghost use Rattle.image_draft.specs.MethodCode.{coded_methods};
    ghost use Rattle.image_draft.specs.MethodSlots.{those_there, KeepsMethods};

    ghost Value = { List MethodDraft };

    ghost coded = { coded_methods };

    ghost view = { λ a. those_there a.slots.slots.items };

    ghost invariant = { λ a. KeepsMethods a.slots };
}

impl Methods {
    /// No methods, which takes no memory.
    pub fn new(alloc: Global) -> Methods
        ensures { result ≡ [] }
    {
        Methods {
            slots: MethodSlots::new(alloc),
        }
    }

    /// Puts a method in the place of the former one of its class, its side and its selector, or last, or tells why it is
    /// refused. Then nothing is changed.
    pub fn put(&mut self, method: MethodDraft) -> Result<Option<ImageCause>, Memory>
        ensures cause { IfOk result (λ cause. told cause ≡ first_cause (method_refusals nat_eq (map entry_of self.old) (run_of method) method.tree.selector)) }
        ensures some { IfOk result (λ cause. is_some cause ≡ is_some (first_cause (method_refusals nat_eq (map entry_of self.old) (run_of method) method.tree.selector))) }
        ensures changed { IfOk result (λ cause. IfNone cause (map entry_of self.new ≡ with_method nat_eq method.kernel (run_of method) method.source (method_of method.tree) (map entry_of self.old))) }
    {
        self.slots.put(method)
    }

    /// Whether the method of a class, a side and a selector is one of the kernel.
    pub fn is_kernel(&self, class: NameId, meta: bool, selector: NameId) -> bool
        ensures { result ≡ refusals.is_kernel_method nat_eq (map entry_of self.now) class meta selector }
    {
        self.slots.is_kernel(MethodKey::new(class, meta, selector))
    }

    /// Takes the method of a class, a side and a selector away, if there is one.
    pub fn remove(&mut self, class: NameId, meta: bool, selector: NameId)
        ensures { self.new ≡ filter (λ m. not (lookup.is_method nat_eq class meta selector (entry_of m))) self.old }
    {
        self.slots.remove(MethodKey::new(class, meta, selector));
    }

    /// Takes the methods of a class away, those of its class side too. It takes time in the number of methods that were
    /// ever put in.
    pub fn remove_of(&mut self, class: NameId)
        ensures { self.new ≡ filter (λ m. not (nat_eq class m.class)) self.old }
    {
        self.slots.remove_of(class);
    }

    /// Whether no method of the kernel stands behind one of the user.
    pub fn kernel_first(&self) -> bool
        ensures { result ≡ in_front (λ m. m.kernel) self.now }
    {
        kernel_slots_first(&self.slots.slots)
    }

    /// Takes the methods out, in order, and leaves none.
    pub fn take_items(&mut self, alloc: Global) -> Result<Vec<MethodDraft>, Memory>
        ensures { IfOk result (λ items. items.items ≡ self.old) }
    {
        let taken = replace(self, Methods::new(alloc)).slots;
        those_there(alloc, taken.slots, taken.count)
    }

    /// These methods, of which no two have one class, one side and one selector, and which are not too many; for others it
    /// answers want of memory.
    pub fn from_items(alloc: Global, items: Vec<MethodDraft>) -> Result<Methods, Memory>
        ensures { IfOk result (λ methods. methods ≡ items.items) }
    {
        Ok(Methods {
            slots: MethodSlots::from_items(alloc, items)?,
        })
    }

    /// The methods in their slots, in order, for one who takes them one after another: they are not copied to a list of their
    /// own. A slot is empty where its method was removed.
    pub fn into_slots(self) -> Vec<Option<MethodDraft>>
        ensures { those_there result.items ≡ self }
    {
        self.slots.slots
    }
}
