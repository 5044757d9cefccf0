// How far a file-out was read.
ghost use Rattle.std.specs.Prelude.{◌≡◌, ◌+◌, [], if◌then◌else◌, Bool, false, true, None, Some, nat_eq, is_some, IfNone, IfSome, IfOk, OnOk};
ghost use Rattle.st_tree.specs.View.{method_of};
ghost use Rattle.image_model.specs.Image.{plus};
ghost use Rattle.class_table.specs.View.{doit_of};
ghost use Rattle.file_model.specs.Causes.{first_cause};
ghost use Rattle.file_model.specs.Changes.{Define, Comment, SetClassSide, RemoveMethod, RemoveClass};
ghost use Rattle.file_model.specs.Refusals.{run_refusals, removal_refusals};
ghost use Rattle.file_model.specs.Applied.{changed, method_added};
ghost use Rattle.image_draft.specs.Early.{told};
ghost use Rattle.image_draft.specs.Drafted.{image_of, change_of, Makes, IsWhole};
ghost use Rattle.image_draft.specs.MethodSlots.{those_there};

use crate::change::{Change, Run};
use crate::class_draft::{ClassDraft, Definition};
use crate::classes::Classes;
use crate::method_draft::MethodDraft;
use crate::methods::Methods;
use class_table::DoIt;
use file_faults::ImageCause;
use rb_base::{Ids, Memory, NameId, Text};
use st_tree::Method;
use std::alloc::Global;

/// How far a file-out was read: classes, methods and do-its, how many of the do-its stand at the head, the run of methods in
/// which the next chunk stands, if it stands in one, and whether all chunks so far that are not blank are do-its.
#[derive(Drop)]
pub struct Draft {
    pub(crate) classes: Classes,
    pub(crate) methods: Methods,
    pub(crate) doits: Vec<DoIt>,
    pub(crate) heads: usize,
    pub(crate) run: Option<Run>,
    pub(crate) at_head: bool,
}

/// What is in a draft.
#[derive(Drop)]
pub struct DraftParts {
    /// The classes: no two have one name, and each superclass stands before its subclasses.
    pub classes: Vec<ClassDraft>,
    /// The methods in their slots, each of one of the classes; a slot is empty where a method was removed.
    pub methods: Vec<Option<MethodDraft>>,
    pub doits: Vec<DoIt>,
    /// How many of the do-its stand before all else: from 0 to their number.
    pub heads: usize,
}

impl Draft {
    /// A draft of nothing, which takes no memory.
    pub fn new(alloc: Global) -> Draft
        ensures image { image_of result ≡ record { classes = []; methods = []; doits = []; heads = 0 } }
        ensures run { result.run ≡ None }
        ensures head { result.at_head ≡ true }
        ensures whole { IsWhole result }
    {
        Draft {
            classes: Classes::new(alloc),
            methods: Methods::new(alloc),
            doits: Vec::new(alloc),
            heads: 0,
            run: None,
            at_head: true,
        }
    }

    /// Begins a file that is read behind what was read so far.
    pub fn begin_file(&mut self)
        ensures begun { self.new ≡ record self.old { run = None; at_head = true } }
        ensures whole { IsWhole self.old → IsWhole self.new }
    {
        self.run = None;
        self.at_head = true;
    }

    /// Whether the next chunk stands in a run of methods.
    pub fn in_run(&self) -> bool
        ensures { result ≡ is_some self.now.run }
    {
        self.run.is_some()
    }

    /// Ends the run of methods, if the next chunk stands in one.
    pub fn end_run(&mut self)
        ensures ended { self.new ≡ record self.old { run = None } }
        ensures whole { IsWhole self.old → IsWhole self.new }
    {
        self.run = None;
    }

    /// Puts a do-it at the end; it is counted where all before it are do-its.
    pub fn add_doit(&mut self, doit: DoIt) -> Result<(), Memory>
        requires { IsWhole self.old }
        ensures image { OnOk result (image_of self.new ≡ record (plus (image_of self.old) (doit_of doit)) { heads = if self.old.at_head then self.old.heads + 1 else self.old.heads }) }
        ensures run { OnOk result (self.new.run ≡ self.old.run) }
        ensures head { OnOk result (self.new.at_head ≡ self.old.at_head) }
        ensures whole { OnOk result (IsWhole self.new) }
    {
        self.doits.push(doit)?;
        if self.at_head {
            self.heads += 1;
        }
        Ok(())
    }

    /// Begins a run of methods, or tells why it is refused, and then changes nothing.
    pub fn open(&mut self, run: Run) -> Option<ImageCause>
        requires { IsWhole self.old }
        ensures cause { told result ≡ first_cause (run_refusals nat_eq self.old.classes run) }
        ensures some { is_some result ≡ is_some (first_cause (run_refusals nat_eq self.old.classes run)) }
        ensures opened { IfNone result (self.new ≡ record self.old { run = Some run; at_head = false }) }
        ensures whole { IsWhole self.new }
    {
        if !self.classes.has(run.class) {
            return Some(ImageCause::UnknownClass);
        }
        self.run = Some(run);
        self.at_head = false;
        None
    }

    /// Makes a change and ends the run of methods, or tells why it is refused; then, and on want of memory, nothing is said
    /// of the draft.
    pub fn change(
        &mut self,
        alloc: Global,
        kernel: bool,
        change: Change,
    ) -> Result<Option<ImageCause>, Memory>
        requires { IsWhole self.old }
        ensures made { IfOk result (λ cause. Makes cause (changed nat_eq kernel (change_of change) (image_of self.old)) (image_of self.new)) }
        ensures run { IfOk result (λ cause. IfNone cause (self.new.run ≡ None)) }
        ensures head { IfOk result (λ cause. IfNone cause (self.new.at_head ≡ false)) }
        ensures whole { IfOk result (λ cause. IfNone cause (IsWhole self.new)) }
    {
        self.run = None;
        self.at_head = false;
        self.apply(alloc, kernel, change)
    }

    /// Makes a change outside a run of methods, or tells why it is refused.
    fn apply(
        &mut self,
        alloc: Global,
        kernel: bool,
        change: Change,
    ) -> Result<Option<ImageCause>, Memory>
        requires whole { IsWhole self.old }
        requires outside { self.old.run ≡ None }
        ensures made { IfOk result (λ cause. Makes cause (changed nat_eq kernel (change_of change) (image_of self.old)) (image_of self.new)) }
        ensures run { self.new.run ≡ None }
        ensures head { self.new.at_head ≡ self.old.at_head }
        ensures whole { IfOk result (λ cause. IfNone cause (IsWhole self.new)) }
    {
        match change {
            Change::Define(definition) => self.define(alloc, kernel, definition),
            Change::Comment { class, text } => Ok(self.comment(class, text)),
            Change::SetClassSide { class, names } => self.set_class_side(alloc, class, names),
            Change::RemoveMethod {
                class,
                meta,
                selector,
            } => Ok(self.remove_method(class, meta, selector)),
            Change::RemoveClass(class) => Ok(self.remove_class(class)),
        }
    }

    /// Defines a class outside a run of methods, or tells why it is refused.
    fn define(
        &mut self,
        alloc: Global,
        kernel: bool,
        definition: Definition,
    ) -> Result<Option<ImageCause>, Memory>
        requires whole { IsWhole self.old }
        requires outside { self.old.run ≡ None }
        ensures made { IfOk result (λ cause. Makes cause (changed nat_eq kernel (Define definition) (image_of self.old)) (image_of self.new)) }
        ensures run { self.new.run ≡ None }
        ensures head { self.new.at_head ≡ self.old.at_head }
        ensures whole { IfOk result (λ cause. IfNone cause (IsWhole self.new)) }
    {
        self.classes.define(alloc, kernel, definition)
    }

    /// Gives a class another comment outside a run of methods, or tells why it is refused.
    fn comment(&mut self, class: NameId, text: Text) -> Option<ImageCause>
        requires whole { IsWhole self.old }
        requires outside { self.old.run ≡ None }
        ensures made { (kernel : Bool) → Makes result (changed nat_eq kernel (Comment class text) (image_of self.old)) (image_of self.new) }
        ensures run { self.new.run ≡ None }
        ensures head { self.new.at_head ≡ self.old.at_head }
        ensures whole { IfNone result (IsWhole self.new) }
    {
        self.classes.comment(class, text)
    }

    /// Gives a class other class-instance variables outside a run of methods, or tells why it is refused.
    fn set_class_side(
        &mut self,
        alloc: Global,
        class: NameId,
        names: Ids,
    ) -> Result<Option<ImageCause>, Memory>
        requires whole { IsWhole self.old }
        requires outside { self.old.run ≡ None }
        ensures made { IfOk result (λ cause. (kernel : Bool) → Makes cause (changed nat_eq kernel (SetClassSide class names) (image_of self.old)) (image_of self.new)) }
        ensures run { self.new.run ≡ None }
        ensures head { self.new.at_head ≡ self.old.at_head }
        ensures whole { IfOk result (λ cause. IfNone cause (IsWhole self.new)) }
    {
        self.classes.set_class_side(alloc, class, names)
    }

    /// Why the removal of a method is refused.
    fn removal_refusal(&self, class: NameId, meta: bool, selector: NameId) -> Option<ImageCause>
        ensures cause { told result ≡ first_cause (removal_refusals nat_eq (image_of self.now) class meta selector) }
        ensures some { is_some result ≡ is_some (first_cause (removal_refusals nat_eq (image_of self.now) class meta selector)) }
    {
        if !self.classes.has(class) {
            return Some(ImageCause::UnknownClass);
        }
        if self.methods.is_kernel(class, meta, selector) {
            return Some(ImageCause::KernelReplaced);
        }
        None
    }

    /// Removes a method, if it is there, outside a run of methods, or tells why it is refused.
    fn remove_method(&mut self, class: NameId, meta: bool, selector: NameId) -> Option<ImageCause>
        requires whole { IsWhole self.old }
        requires outside { self.old.run ≡ None }
        ensures made { (kernel : Bool) → Makes result (changed nat_eq kernel (RemoveMethod class meta selector) (image_of self.old)) (image_of self.new) }
        ensures run { self.new.run ≡ None }
        ensures head { self.new.at_head ≡ self.old.at_head }
        ensures whole { IfNone result (IsWhole self.new) }
    {
        let refusal = self.removal_refusal(class, meta, selector);
        if refusal.is_some() {
            return refusal;
        }
        self.methods.remove(class, meta, selector);
        None
    }

    /// Removes a class and its methods outside a run of methods, or tells why it is refused.
    fn remove_class(&mut self, class: NameId) -> Option<ImageCause>
        requires whole { IsWhole self.old }
        requires outside { self.old.run ≡ None }
        ensures made { (kernel : Bool) → Makes result (changed nat_eq kernel (RemoveClass class) (image_of self.old)) (image_of self.new) }
        ensures run { self.new.run ≡ None }
        ensures head { self.new.at_head ≡ self.old.at_head }
        ensures whole { IfNone result (IsWhole self.new) }
    {
        let refusal = self.classes.removal_refusal(class);
        if refusal.is_some() {
            return refusal;
        }
        self.classes.remove(class);
        self.methods.remove_of(class);
        None
    }

    /// Puts a method of the run in, in the place of the former one of its class, side and selector, or last; or tells why it
    /// is refused. Then, and on want of memory, nothing is said of the draft. Outside a run it answers want of memory.
    pub fn add_method(
        &mut self,
        alloc: Global,
        kernel: bool,
        source: Text,
        tree: Method,
    ) -> Result<Option<ImageCause>, Memory>
        requires { IsWhole self.old }
        ensures made { IfOk result (λ cause. IfSome self.old.run (λ r. Makes cause (method_added nat_eq kernel r source (method_of tree) (image_of self.old)) (image_of self.new))) }
        ensures run { IfOk result (λ cause. IfNone cause (self.new.run ≡ self.old.run)) }
        ensures head { IfOk result (λ cause. IfNone cause (self.new.at_head ≡ false)) }
        ensures whole { IfOk result (λ cause. IfNone cause (IsWhole self.new)) }
    {
        let method = match &self.run {
            None => return Err(Memory),
            Some(run) => method_in(alloc, run, kernel, source, tree)?,
        };
        self.at_head = false;
        self.methods.put(method)
    }

    /// What was read, in parts. The error is want of memory for the lists of the classes.
    pub fn into_parts(self) -> Result<DraftParts, Memory>
        ensures classes { IfOk result (λ parts. parts.classes.items ≡ self.classes) }
        ensures methods { IfOk result (λ parts. those_there parts.methods.items ≡ self.methods) }
        ensures doits { IfOk result (λ parts. parts.doits ≡ self.doits) }
        ensures heads { IfOk result (λ parts. parts.heads ≡ self.heads) }
    {
        let mut draft = self;
        let classes = draft.classes.take_items()?;
        Ok(DraftParts {
            classes,
            methods: draft.methods.into_slots(),
            doits: draft.doits,
            heads: draft.heads,
        })
    }
}

/// A method of a run.
fn method_in(
    alloc: Global,
    run: &Run,
    kernel: bool,
    source: Text,
    tree: Method,
) -> Result<MethodDraft, Memory>
    ensures { IfOk result (λ m. m ≡ record { class = run.now.class; meta = run.now.meta; protocol = run.now.protocol; source = source; tree = tree; kernel = kernel }) }
{
    let protocol = run.protocol.try_copy(alloc)?;
    Ok(MethodDraft {
        class: run.class,
        meta: run.meta,
        protocol,
        source,
        tree,
        kernel,
    })
}
