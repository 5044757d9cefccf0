// The parts of a draft, taken out and put in again.
ghost use Rattle.std.specs.Prelude.{◌≡◌, ◌<◌, [], length, nat_eq, option_copied, slice_set, false, None, IfOk, OnOk};
ghost use Rattle.image_model.specs.Valid.{class_names};
ghost use Rattle.file_model.specs.Hierarchy.{has_class};
ghost use Rattle.image_draft.specs.Fronts.{in_front};
ghost use Rattle.image_draft.specs.Once.{AreSound};

use crate::boxed_class::BoxedClass;
use crate::change::Run;
use crate::class_draft::ClassDraft;
use crate::classes::Classes;
use crate::draft::Draft;
use crate::fronts::kernel_classes_first;
use crate::method_draft::MethodDraft;
use crate::methods::Methods;
use class_table::DoIt;
use rb_base::{Ids, Memory, NameId};
use std::alloc::Global;

/// The names of classes, in order.
fn names_of(alloc: Global, classes: &[BoxedClass]) -> Result<Ids, Memory>
    ensures { IfOk result (λ names. names ≡ class_names classes.now) }
{
    let mut names = Ids::new(alloc);
    for class in classes {
        names.push(class.name())?;
    }
    Ok(names)
}

impl Draft {
    /// Whether there is a class of a name.
    pub fn has_class(&self, name: NameId) -> bool
        ensures { result ≡ has_class nat_eq self.now.classes name }
    {
        self.classes.has(name)
    }

    /// The names of the classes, in order.
    pub fn class_names(&self, alloc: Global) -> Result<Ids, Memory>
        ensures { IfOk result (λ names. names ≡ class_names self.now.classes) }
    {
        names_of(alloc, self.classes.as_slice())
    }

    /// Whether no class of the kernel stands behind one of the user.
    pub fn kernel_classes_first(&self) -> bool
        ensures { result ≡ in_front (λ c. c.kernel) self.now.classes }
    {
        kernel_classes_first(self.classes.as_slice())
    }

    /// Whether no method of the kernel stands behind one of the user.
    pub fn kernel_methods_first(&self) -> bool
        ensures { result ≡ in_front (λ m. m.kernel) self.now.methods }
    {
        self.methods.kernel_first()
    }

    /// The run of methods in which the next chunk stands, if it stands in one.
    pub fn run(&self) -> Option<&Run>
        ensures { option_copied result ≡ self.now.run }
    {
        self.run.as_ref()
    }

    /// How many do-its there are.
    pub fn doit_count(&self) -> usize
        ensures { result ≡ length self.now.doits.items }
    {
        self.doits.len()
    }

    /// Puts a do-it in the place of another, counted from 0, and ends the run of methods.
    pub fn replace_doit(&mut self, place: usize, doit: DoIt)
        requires { place < length self.old.doits.items }
        ensures doits { self.new.doits.items ≡ slice_set self.old.doits.items place doit }
        ensures rest { self.new ≡ record self.old { doits = self.new.doits; run = None; at_head = false } }
    {
        self.doits[place] = doit;
        self.leave_head();
    }

    /// Ends the run of methods; what follows does not stand at the head.
    pub fn leave_head(&mut self)
        ensures { self.new ≡ record self.old { run = None; at_head = false } }
    {
        self.run = None;
        self.at_head = false;
    }

    /// Takes the classes out, and leaves none.
    pub fn take_classes(&mut self) -> Result<Vec<ClassDraft>, Memory>
        ensures taken { IfOk result (λ classes. classes.items ≡ self.old.classes) }
        ensures sound { AreSound self.old.classes }
        ensures rest { self.new ≡ record self.old { classes = [] } }
    {
        self.classes.take_items()
    }

    /// Puts classes in, in place of those that are there.
    pub fn put_classes(&mut self, alloc: Global, classes: Vec<ClassDraft>) -> Result<(), Memory>
        requires { AreSound classes.items }
        ensures { OnOk result (self.new ≡ record self.old { classes = classes.items }) }
    {
        self.classes = Classes::from_items(alloc, classes)?;
        Ok(())
    }

    /// Takes the methods out, in order.
    pub fn take_methods(&mut self, alloc: Global) -> Result<Vec<MethodDraft>, Memory>
        ensures taken { IfOk result (λ methods. methods.items ≡ self.old.methods) }
        ensures rest { self.new ≡ record self.old { methods = self.new.methods } }
    {
        self.methods.take_items(alloc)
    }

    /// Puts methods in, in place of those that are there: no two are of one class, one side and one selector, and they are
    /// no more than there may be. For others it answers want of memory.
    pub fn put_methods(&mut self, alloc: Global, methods: Vec<MethodDraft>) -> Result<(), Memory>
        ensures { OnOk result (self.new ≡ record self.old { methods = methods.items }) }
    {
        self.methods = Methods::from_items(alloc, methods)?;
        Ok(())
    }
}
