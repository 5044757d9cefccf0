// Images, and what can be read of them.
ghost use Rattle.std.specs.Prelude.{◌≡◌, [], length, slice_get, map, option_map, option_copied, OnOk, OnErr, MatchOption};
ghost use Rattle.std.specs.Option.{option_map};
ghost use Rattle.class_table.specs.Order.{IsOrderOf};
ghost use Rattle.class_table.specs.View.{live_at};
ghost use Rattle.class_table.specs.Info.{IsInfoOf, source_at};

use crate::class_order::ClassOrder;
use crate::method_order::MethodOrder;
use crate::record::{ClassId, ClassRec, DoIt, MethodInfo, MethodRec, MethodSlot};
use crate::tables::{ClassTable, MethodTable};
use rb_base::Names;
use std::alloc::Global;
use std::marker::Model;

/// An image: names, classes, methods and do-its. Classes and methods stand in slots, which keep their numbers, and the
/// slots that are live have an order. Contracts see the slots; `image_of` in specs/ reads these as the image over texts.
#[derive(Drop)]
pub struct Image {
    pub(crate) alloc: Global,
    pub(crate) names: Names,
    pub(crate) classes: Vec<ClassRec>,
    pub(crate) class_order: ClassOrder,
    pub(crate) methods: Vec<MethodRec>,
    pub(crate) method_order: MethodOrder,
    pub(crate) doits: Vec<DoIt>,
    pub(crate) heads: usize,
    pub(crate) by_name: ClassTable,
    pub(crate) by_key: MethodTable,
}

impl Model for Image {
    ghost use Rattle.class_table.specs.Slots.{Slots};
    ghost use Rattle.class_table.specs.SlotsCode.{coded_slots};

    ghost Value = { Slots };

    ghost coded = { coded_slots };

    ghost view = { λ a. record {
      names = a.names;
      classes = a.classes.items;
      class_order = a.class_order.items;
      methods = a.methods.items;
      method_order = a.method_order.items;
      doits = a.doits.items;
      heads = a.heads;
    } };

    ghost use Rattle.class_table.specs.Tables.{KeepsSlots};

    ghost invariant = { λ a. KeepsSlots a.by_name a.by_key a.classes.items a.class_order a.methods.items a.method_order };
}

impl Image {
    /// An image of nothing, which takes no memory.
    pub fn new(alloc: Global) -> Image
        ensures { result ≡ record { names = []; classes = []; class_order = []; methods = []; method_order = []; doits = []; heads = 0 } }
    {
        Image {
            alloc,
            names: Names::new(alloc),
            classes: Vec::new(alloc),
            class_order: ClassOrder::new(alloc),
            methods: Vec::new(alloc),
            method_order: MethodOrder::new(alloc),
            doits: Vec::new(alloc),
            heads: 0,
            by_name: ClassTable::new(alloc),
            by_key: MethodTable::new(alloc),
        }
    }

    /// The names to which the numbers in the image belong.
    pub fn names(&self) -> &Names
        ensures { result.now ≡ self.now.names }
    {
        &self.names
    }

    /// The live classes in order.
    pub fn classes(&self) -> &[ClassId]
        ensures value { result.now ≡ self.now.class_order }
        ensures order { IsOrderOf (record { items = self.now.class_order; slots = length self.now.classes }) }
    {
        self.class_order.items()
    }

    /// The live methods in order.
    pub fn methods(&self) -> &[MethodSlot]
        ensures value { result.now ≡ self.now.method_order }
        ensures order { IsOrderOf (record { items = self.now.method_order; slots = length self.now.methods }) }
    {
        self.method_order.items()
    }

    /// How many do-its there are.
    pub fn doits(&self) -> usize
        ensures { result ≡ length self.now.doits }
    {
        self.doits.len()
    }

    /// How many of the do-its stand before the definitions.
    pub fn heads(&self) -> usize
        ensures { result ≡ self.now.heads }
    {
        self.heads
    }

    /// Says how many of the do-its stand before the definitions.
    pub fn set_heads(&mut self, heads: usize)
        ensures { self.new ≡ record self.old { heads = heads } }
    {
        self.heads = heads;
    }

    /// The class in a slot, if the slot is live.
    pub fn class_rec(&self, id: ClassId) -> Option<&ClassRec>
        ensures { option_copied result ≡ live_at self.now.classes self.now.class_order id }
    {
        if self.class_order.is_live(id) {
            self.classes.get(id.0)
        } else {
            None
        }
    }

    /// What is known of the method in a slot without its tree, if the slot is live.
    pub fn method_info(&self, slot: MethodSlot) -> Option<MethodInfo<'_>>
        ensures { IsInfoOf result (live_at self.now.methods self.now.method_order slot) }
    {
        if !self.method_order.is_live(slot) {
            return None;
        }
        let rec = self.methods.get(slot.0)?;
        Some(MethodInfo {
            class: rec.class,
            meta: rec.meta,
            selector: rec.tree.selector,
            protocol: rec.protocol.as_slice(),
            source: rec.source.as_slice(),
            kernel: rec.kernel,
        })
    }

    /// The source of the do-it of a number, from 0, if there are so many.
    pub fn doit_source(&self, number: usize) -> Option<&[u8]>
        ensures { option_copied result ≡ source_at self.now.doits number }
    {
        let doit = self.doits.get(number)?;
        Some(doit.source.as_slice())
    }
}
