// A draft of an image with the places that are stated for its classes and methods.
ghost use Rattle.std.specs.Prelude.{◌≡◌, ◌+◌, ◌-◌, ◌≤◌, [], if◌then◌else◌, true, false, length, slice_set, nat_eq, is_some, None, Some, IfNone, IfSome, IfOk, OnOk};
ghost use Rattle.st_tree.specs.View.{method_of};
ghost use Rattle.image_model.specs.Image.{plus};
ghost use Rattle.class_table.specs.View.{doit_of};
ghost use Rattle.file_model.specs.Causes.{first_cause};
ghost use Rattle.file_model.specs.Changes.{DefineAt};
ghost use Rattle.file_model.specs.Refusals.{run_refusals};
ghost use Rattle.file_model.specs.Applied.{changed, method_added};
ghost use Rattle.file_model.specs.Places.{no_places, opened_at, places_after, places_behind, placed};
ghost use Rattle.image_draft.specs.Early.{told};
ghost use Rattle.image_draft.specs.Drafted as drafted;
ghost use Rattle.image_draft.specs.Drafted.{change_of, Makes};
ghost use Rattle.placed_draft.specs.Placed.{image_of, places_of, IsWhole};

use crate::places::Places;
use class_table::DoIt;
use file_faults::ImageCause;
use image_draft::{Change, Definition, Draft, Run};
use rb_base::{Ids, Memory, NameId, Text};
use st_tree::Method;
use std::alloc::Global;

/// How far a file-out was read, with the places that are stated and not settled yet. The classes of the draft stand behind
/// their superclasses; where those of the image stand in another order, their names are noted in that order.
#[derive(Drop)]
pub struct PlacedDraft {
    pub(crate) draft: Draft,
    pub(crate) order: Option<Ids>,
    pub(crate) places: Places,
}

impl PlacedDraft {
    /// A draft of nothing, which takes no memory.
    pub fn new(alloc: Global) -> PlacedDraft
        ensures image { image_of result ≡ record { classes = []; methods = []; doits = []; heads = 0 } }
        ensures run { result.draft.run ≡ None }
        ensures head { result.draft.at_head ≡ true }
        ensures places { places_of result ≡ no_places }
        ensures whole { IsWhole result }
    {
        PlacedDraft {
            draft: Draft::new(alloc),
            order: None,
            places: Places::new(alloc),
        }
    }

    /// Begins a file that is read behind what was read so far; the places that were stated are forgotten.
    pub fn begin_file(&mut self)
        requires { IsWhole self.old }
        ensures image { image_of self.new ≡ image_of self.old }
        ensures run { self.new.draft.run ≡ None }
        ensures head { self.new.draft.at_head ≡ true }
        ensures places { places_of self.new ≡ no_places }
        ensures whole { IsWhole self.new }
    {
        self.draft.begin_file();
        self.places.clear();
    }

    /// Whether the next chunk stands in a run of methods.
    pub fn in_run(&self) -> bool
        ensures { result ≡ is_some self.now.draft.run }
    {
        self.draft.in_run()
    }

    /// Ends the run of methods, if the next chunk stands in one.
    pub fn end_run(&mut self)
        requires { IsWhole self.old }
        ensures image { image_of self.new ≡ image_of self.old }
        ensures run { self.new.draft.run ≡ None }
        ensures head { self.new.draft.at_head ≡ self.old.draft.at_head }
        ensures places { places_of self.new ≡ places_of self.old }
        ensures whole { IsWhole self.new }
    {
        self.draft.end_run();
    }

    /// Puts a do-it at the end; it is counted where all before it are do-its.
    pub fn add_doit(&mut self, doit: DoIt) -> Result<(), Memory>
        requires { IsWhole self.old }
        ensures image { OnOk result (image_of self.new ≡ record (plus (image_of self.old) (doit_of doit)) { heads = if self.old.draft.at_head then (image_of self.old).heads + 1 else (image_of self.old).heads }) }
        ensures run { OnOk result (self.new.draft.run ≡ self.old.draft.run) }
        ensures head { OnOk result (self.new.draft.at_head ≡ self.old.draft.at_head) }
        ensures places { OnOk result (places_of self.new ≡ places_of self.old) }
        ensures whole { OnOk result (IsWhole self.new) }
    {
        self.draft.add_doit(doit)
    }

    /// How many do-its there are.
    pub fn doit_count(&self) -> usize
        ensures { result ≡ length (image_of self.now).doits }
    {
        self.draft.doit_count()
    }

    /// Puts a do-it in the place of another, counted from 1, and ends the run of methods.
    pub fn replace_doit(&mut self, place: usize, doit: DoIt)
        requires whole { IsWhole self.old }
        requires first { 1 ≤ place }
        requires within { place ≤ length (image_of self.old).doits }
        ensures image { image_of self.new ≡ record (image_of self.old) { doits = slice_set (image_of self.old).doits (place - 1) (doit_of doit) } }
        ensures run { self.new.draft.run ≡ None }
        ensures head { self.new.draft.at_head ≡ false }
        ensures places { places_of self.new ≡ opened_at None (places_of self.old) }
        ensures whole { IsWhole self.new }
    {
        self.draft.replace_doit(place - 1, doit);
        self.places.open(None);
    }

    /// Begins a run of methods, whose first method has a place or none, or tells why it is refused; then
    /// nothing is said of the draft.
    pub fn open(&mut self, run: Run, place: Option<usize>) -> Option<ImageCause>
        requires { IsWhole self.old }
        ensures cause { told result ≡ first_cause (run_refusals nat_eq (image_of self.old).classes run) }
        ensures some { is_some result ≡ is_some (first_cause (run_refusals nat_eq (image_of self.old).classes run)) }
        ensures image { IfNone result (image_of self.new ≡ image_of self.old) }
        ensures run { IfNone result (self.new.draft.run ≡ Some run) }
        ensures head { IfNone result (self.new.draft.at_head ≡ false) }
        ensures places { IfNone result (places_of self.new ≡ opened_at place (places_of self.old)) }
        ensures whole { IfNone result (IsWhole self.new) }
    {
        let refusal = self.draft.open(run);
        if refusal.is_none() {
            self.places.open(place);
        }
        refusal
    }

    /// Makes a change and ends the run of methods, or tells why it is refused; then, and on want of memory, nothing is said
    /// of the draft.
    pub fn change(
        &mut self,
        alloc: Global,
        kernel: bool,
        change: Change,
    ) -> Result<Option<ImageCause>, Memory>
        requires { IsWhole self.old }
        ensures made { IfOk result (λ cause. Makes cause (changed nat_eq kernel (change_of change) (image_of self.old)) (image_of self.new)) }
        ensures run { IfOk result (λ cause. IfNone cause (self.new.draft.run ≡ None)) }
        ensures head { IfOk result (λ cause. IfNone cause (self.new.draft.at_head ≡ false)) }
        ensures places { IfOk result (λ cause. IfNone cause (places_of self.new ≡ places_after nat_eq (change_of change) (places_of self.old))) }
        ensures whole { IfOk result (λ cause. IfNone cause (IsWhole self.new)) }
    {
        self.places.forget(&change);
        match self.order.take() {
            None => self.draft.change(alloc, kernel, change),
            Some(order) => self.change_ordered(alloc, kernel, change, order),
        }
    }

    /// Defines a class and states a place for it, which leaves the order of classes as it is, and ends the run of methods, or
    /// tells why it is refused; then, and on want of memory, nothing is said of the draft.
    pub fn define_at(
        &mut self,
        alloc: Global,
        kernel: bool,
        definition: Definition,
        place: usize,
    ) -> Result<Option<ImageCause>, Memory>
        requires { IsWhole self.old }
        ensures made { IfOk result (λ cause. Makes cause (changed nat_eq kernel (DefineAt definition place) (image_of self.old)) (image_of self.new)) }
        ensures run { IfOk result (λ cause. IfNone cause (self.new.draft.run ≡ None)) }
        ensures head { IfOk result (λ cause. IfNone cause (self.new.draft.at_head ≡ false)) }
        ensures places { IfOk result (λ cause. IfNone cause (places_of self.new ≡ places_after nat_eq (DefineAt definition place) (places_of self.old))) }
        ensures whole { IfOk result (λ cause. IfNone cause (IsWhole self.new)) }
    {
        let name = definition.name;
        self.places.state_class(name, place)?;
        let order = self.take_order(alloc)?;
        self.define_kept(alloc, kernel, definition, order)
    }

    /// Puts a method of the run in, in the place of the former one of its class, side and selector, or last, and at the next
    /// place where the run states places; or tells why it is refused. Then, and on want of memory, nothing is said of the
    /// draft. Outside a run it answers want of memory.
    pub fn add_method(
        &mut self,
        alloc: Global,
        kernel: bool,
        source: Text,
        tree: Method,
    ) -> Result<Option<ImageCause>, Memory>
        requires { IsWhole self.old }
        ensures made { IfOk result (λ cause. IfSome self.old.draft.run (λ r. Makes cause (method_added nat_eq kernel r source (method_of tree) (image_of self.old)) (image_of self.new))) }
        ensures run { IfOk result (λ cause. IfNone cause (self.new.draft.run ≡ self.old.draft.run)) }
        ensures head { IfOk result (λ cause. IfNone cause (self.new.draft.at_head ≡ false)) }
        ensures places { IfOk result (λ cause. IfSome self.old.draft.run (λ r. IfNone cause (places_of self.new ≡ places_behind r.class r.meta (method_of tree).selector (places_of self.old)))) }
        ensures whole { IfOk result (λ cause. IfNone cause (IsWhole self.new)) }
    {
        self.count_method(tree.selector)?;
        self.draft.add_method(alloc, kernel, source, tree)
    }

    /// A method of the run has the next place, where its run states places. Outside a run it answers want of memory.
    fn count_method(&mut self, selector: NameId) -> Result<(), Memory>
        ensures inside { OnOk result (is_some self.old.draft.run ≡ true) }
        ensures places { OnOk result (IfSome self.old.draft.run (λ r. self.new.places ≡ places_behind r.class r.meta selector self.old.places)) }
        ensures rest { self.new ≡ record self.old { places = self.new.places } }
    {
        match self.draft.run() {
            None => Err(Memory),
            Some(run) => self.places.count_method(run.class, run.meta, selector),
        }
    }

    /// Puts methods and classes at the places that are stated for them and the classes in order, ends the run of methods, and
    /// forgets the places. The error is want of memory; then nothing is said of the draft.
    pub fn settle(&mut self, alloc: Global) -> Result<(), Memory>
        requires { IsWhole self.old }
        ensures image { OnOk result (image_of self.new ≡ placed nat_eq (places_of self.old) (image_of self.old)) }
        ensures run { OnOk result (self.new.draft.run ≡ None) }
        ensures head { OnOk result (self.new.draft.at_head ≡ false) }
        ensures places { OnOk result (places_of self.new ≡ no_places) }
        ensures whole { OnOk result (IsWhole self.new) }
        ensures order { OnOk result (self.new.order ≡ None) }
    {
        self.draft.leave_head();
        self.settle_classes(alloc)?;
        self.settle_methods(alloc)?;
        self.places.clear();
        Ok(())
    }

    /// The draft with methods and classes at the places that are stated for them and the classes in order. The error is want
    /// of memory.
    pub fn finish(self, alloc: Global) -> Result<Draft, Memory>
        requires { IsWhole self }
        ensures image { IfOk result (λ draft. drafted.image_of draft ≡ placed nat_eq (places_of self) (image_of self)) }
        ensures whole { IfOk result drafted.IsWhole }
    {
        let mut placed = self;
        placed.settle(alloc)?;
        Ok(placed.draft)
    }
}
