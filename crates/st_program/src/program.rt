// Programs.
ghost use Rattle.std.specs.Prelude.{◌≡◌, ℕ, Some, None, IfOk, length, slice_get, option_map, unwrap_or, codes, if◌then◌else◌};
ghost use Rattle.rb_base.specs.Names.{name_at};
ghost use Rattle.tree_model.specs.Tree.{map_sequence};
ghost use Rattle.st_tree.specs.View.{sequence_of};
ghost use Rattle.std.specs.Option.{option_and_then, option_or};
ghost use Rattle.image_model.specs.Image.{DoItOf, map_entry};
ghost use Rattle.image_model.specs.Words.{text_words};
ghost use Rattle.image_model.specs.Lookup.{lookup, super_lookup};
ghost use Rattle.image_model.specs.Means.{a_class, transcript, undeclared, means_outside};
ghost use Rattle.rb_base.specs.Names.{text_eq};
ghost use Rattle.class_table.specs.declared.record.ClassRec.{ClassRec};
ghost use Rattle.class_table.specs.View.{entry_of, live_at, image_of};
ghost use Rattle.class_table.specs.Valid.{IsOrderly};
ghost use Rattle.run_model.specs.Values.{Name};
ghost use Rattle.run_model.specs.Runs.{doit_class};
ghost use Rattle.st_program.specs.Found.{bare, entry_from};
ghost use Rattle.st_program.specs.Meaning.{meaning_from};
ghost use Rattle.st_program.specs.Definers.{defined_at, definer_from, means_from};
ghost use Rattle.st_program.specs.Slots.{class_slot, slot_in, slot_without, slot_from, slot_above};

use crate::fetch::{body_at, tree_at};
use crate::found::Found;
use crate::meaning::{Kind, Meaning, side};
use crate::variables::{is_among, variables};
use class_table::{ClassId, Image, MethodSlot};
use rb_base::{Memory, NameId};
use st_meaning::{Context, SharedNames, SharedText, same_text};
use st_tree::Sequence;
use std::alloc::Global;
use std::marker::Model;

/// An image that is run, with the texts of its names. Contracts see the slots of the image; `image_of` of the table of
/// classes reads these as the image over texts.
#[derive(Drop)]
pub struct Program<'p> {
    alloc: Global,
    image: &'p Image,
    names: SharedNames,
}

impl<'p> Model for Program<'p> {
    ghost use Rattle.class_table.specs.Slots.{Slots};
    ghost use Rattle.class_table.specs.SlotsCode.{coded_slots};

    ghost Value = { Slots };

    ghost coded = { coded_slots };

    ghost view = { λ a. a.image.now };

    ghost use Rattle.std.specs.Prelude.{◌≡◌};
    ghost use Rattle.class_table.specs.Valid.{IsOrderly};

    ghost invariant = { λ a. record { names : a.names ≡ a.image.now.names; orderly : IsOrderly a.image.now } };
}

impl<'p> Program<'p> {
    /// The program of an image.
    pub fn new(alloc: Global, image: &'p Image) -> Result<Program<'p>, Memory>
        requires { IsOrderly image.now }
        ensures { IfOk result (λ program. program ≡ image.now) }
    {
        let names = SharedNames::new(alloc, image.names())?;
        Ok(Program {
            alloc,
            image,
            names,
        })
    }

    /// The texts of the names.
    pub fn names(&self) -> &SharedNames
        ensures { result.now ≡ self.now.names }
    {
        &self.names
    }

    fn class_slot(&self, class: &[u8]) -> Option<ClassId>
        ensures { result ≡ class_slot self.now class.now }
    {
        self.image.class_named(self.image.names().find(class)?)
    }

    fn slot_in(&self, class: ClassId, meta: bool, selector: &[u8]) -> Option<MethodSlot>
        ensures { result ≡ slot_in self.now class meta selector.now }
    {
        self.image
            .lookup(class, meta, self.image.names().find(selector)?)
    }

    fn slot_without(&self, meta: bool, selector: &[u8]) -> Option<MethodSlot>
        ensures { result ≡ slot_without self.now meta selector.now }
    {
        if !meta {
            return None;
        }
        self.slot_in(self.class_slot(b"Class")?, false, selector)
    }

    fn slot_from(&self, class: Option<ClassId>, meta: bool, selector: &[u8]) -> Option<MethodSlot>
        ensures { result ≡ slot_from self.now class meta selector.now }
    {
        match class {
            Some(class) => self.slot_in(class, meta, selector),
            None => self.slot_without(meta, selector),
        }
    }

    fn slot_above(&self, class: ClassId) -> Option<ClassId>
        ensures { result ≡ slot_above self.now class }
    {
        self.image.class_rec(class)?.superclass
    }

    fn class_text(&self, class: ClassId) -> Result<Option<SharedText>, Memory>
        ensures { IfOk result (λ text. text ≡ option_map (λ (c : ClassRec). name_at self.now.names c.name) (live_at self.now.classes self.now.class_order class)) }
    {
        match self.image.class_rec(class) {
            Some(rec) => Ok(Some(self.names.text(rec.name)?)),
            None => Ok(None),
        }
    }

    /// The method in a slot, if the slot is live.
    fn found_in(&self, slot: MethodSlot) -> Result<Option<Found<'p>>, Memory>
        ensures { IfOk result (λ found. option_map (entry_from self.now.names) found ≡ option_map bare (option_map (map_entry (name_at self.now.names)) (option_map (entry_of self.now.classes) (live_at self.now.methods self.now.method_order slot)))) }
    {
        let image: &'p Image = self.image;
        let Some(info) = image.method_info(slot) else {
            return Ok(None);
        };
        let Some(tree) = tree_at(image, slot) else {
            return Ok(None);
        };
        Ok(Some(Found {
            class: self.class_text(info.class)?,
            meta: info.meta,
            tree,
        }))
    }

    fn found_at(&self, slot: Option<MethodSlot>) -> Result<Option<Found<'p>>, Memory>
        ensures { IfOk result (λ found. option_map (entry_from self.now.names) found ≡ option_map bare (option_map (map_entry (name_at self.now.names)) (option_and_then (λ y. option_map (entry_of self.now.classes) (live_at self.now.methods self.now.method_order y)) slot))) }
    {
        match slot {
            Some(slot) => self.found_in(slot),
            None => Ok(None),
        }
    }

    /// The method that a message to a value of a class runs, or to the class itself where `meta` is true; the class is
    /// given by its name. `None` where there is no such method.
    pub fn method_for(
        &self,
        class: &[u8],
        meta: bool,
        selector: NameId,
    ) -> Result<Option<Found<'p>>, Memory>
        ensures { IfOk result (λ found. option_map (entry_from self.now.names) found ≡ option_map bare (lookup text_words (image_of self.now) (Some class.now) meta (name_at self.now.names selector))) }
    {
        let text = self.names.as_slice(selector);
        self.found_at(self.slot_from(self.class_slot(class), meta, text))
    }

    /// The method that a message to `super` runs in a method of the context's class and side.
    pub fn super_method_for(
        &self,
        context: &Context,
        selector: NameId,
    ) -> Result<Option<Found<'p>>, Memory>
        ensures { IfOk result (λ found. option_map (entry_from self.now.names) found ≡ option_map bare (super_lookup text_words (image_of self.now) context.now.home.class context.now.home.meta (name_at self.now.names selector))) }
    {
        let text = self.names.as_slice(selector);
        let above = self.above(context);
        self.found_at(self.slot_from(above, context.meta(), text))
    }

    fn above(&self, context: &Context) -> Option<ClassId>
        ensures { result ≡ option_and_then (slot_above self.now) (option_and_then (class_slot self.now) context.now.home.class) }
    {
        let class = context.class()?;
        self.slot_above(self.class_slot(class.as_slice())?)
    }

    /// The name of the live class in a slot, if it defines the variable.
    fn defined_at(
        &self,
        class: ClassId,
        kind: Kind,
        text: &[u8],
    ) -> Result<Option<SharedText>, Memory>
        ensures { IfOk result (λ definer. definer ≡ defined_at self.now kind text.now class) }
    {
        let Some(rec) = self.image.class_rec(class) else {
            return Ok(None);
        };
        if is_among(&self.names, variables(rec, kind), text) {
            Ok(Some(self.names.text(rec.name)?))
        } else {
            Ok(None)
        }
    }

    /// The name of the class that defines a variable of a kind, on the chain of the context's class.
    #[tactic(auto, using(crate::proofs::Meant::walk_on))]
    fn definer(
        &self,
        context: &Context,
        kind: Kind,
        text: &[u8],
    ) -> Result<Option<SharedText>, Memory>
        ensures { IfOk result (λ definer. definer ≡ definer_from self.now kind text.now (option_and_then (class_slot self.now) context.now.home.class)) }
    {
        let mut at = self.class_of(context);
        let mut left = self.image.classes().len();
        while left > 0 {
            let Some(slot) = at else {
                return Ok(None);
            };
            match self.defined_at(slot, kind, text)? {
                Some(definer) => return Ok(Some(definer)),
                None => {}
            }
            at = self.image.chain_at(slot, 1);
            left -= 1;
        }
        Ok(None)
    }

    /// What a name stands for that is no variable.
    fn global(&self, text: &[u8]) -> Result<Meaning, Memory>
        ensures { IfOk result (λ meaning. meaning_from meaning ≡ unwrap_or (option_or (option_map (λ (k : ℕ). a_class text.now) (class_slot self.now text.now)) (if text_eq (codes "Transcript") text.now then Some transcript else None)) undeclared) }
    {
        if self.class_slot(text).is_some() {
            return Ok(Meaning::Class {
                name: SharedText::from_slice(self.alloc, text)?,
            });
        }
        if same_text(b"Transcript", text) {
            Ok(Meaning::Transcript)
        } else {
            Ok(Meaning::Undeclared)
        }
    }

    fn class_of(&self, context: &Context) -> Option<ClassId>
        ensures { result ≡ option_and_then (class_slot self.now) context.now.home.class }
    {
        let class = context.class()?;
        self.class_slot(class.as_slice())
    }

    /// What a name stands for in the methods of the context's class and side, where they do not declare it.
    pub fn meaning(&self, context: &Context, name: NameId) -> Result<Meaning, Memory>
        ensures { IfOk result (λ meaning. meaning_from meaning ≡ means_outside text_words (image_of self.now) context.now.home.class context.now.home.meta (name_at self.now.names name)) }
    {
        let text = self.names.as_slice(name);
        self.meaning_of_text(context, text)
    }

    fn meaning_of_text(&self, context: &Context, text: &[u8]) -> Result<Meaning, Memory>
        ensures { IfOk result (λ meaning. meaning_from meaning ≡ means_from self.now (option_and_then (class_slot self.now) context.now.home.class) context.now.home.meta text.now) }
    {
        let side = side(context.meta());
        if let Some(definer) = self.definer(context, side, text)? {
            return Ok(Meaning::variable(side, definer));
        }
        if let Some(definer) = self.definer(context, Kind::Shared, text)? {
            return Ok(Meaning::Shared { definer });
        }
        self.global(text)
    }

    /// How many do-its there are.
    pub fn doits(&self) -> usize
        ensures { result ≡ length (image_of self.now).doits }
    {
        self.image.doits()
    }

    /// The body of the do-it of a number, from 0, if there are so many.
    pub fn doit(&self, number: usize) -> Option<&'p Sequence>
        ensures { option_map (λ b. map_sequence (name_at self.now.names) (sequence_of b.now)) result ≡ option_map (λ (d : DoItOf Name). d.body) (slice_get (image_of self.now).doits number) }
    {
        body_at(self.image, number)
    }

    /// The class of which do-its are read as methods: `UndefinedObject`, if there is one.
    pub fn doit_class(&self) -> Result<Option<SharedText>, Memory>
        ensures { IfOk result (λ class. class ≡ doit_class (image_of self.now)) }
    {
        let name = b"UndefinedObject";
        match self.class_slot(name) {
            Some(_) => Ok(Some(SharedText::from_slice(self.alloc, name)?)),
            None => Ok(None),
        }
    }

    /// The image.
    pub fn image(&self) -> &'p Image
        ensures value { result.now ≡ self.now }
        ensures orderly { IsOrderly result.now }
    {
        self.image
    }
}
