// Objects and arrays.
ghost use Rattle.std.specs.Prelude.{◌≡◌, ◌++◌, ◌∷◌, [], length, set, map, slice_get, IfOk, OnOk, OnErr};
ghost use Rattle.std.specs.Option.{option_copied};
ghost use Rattle.run_model.specs.Store.{with_object, with_array};
ghost use Rattle.run_model.specs.Views.{class_of_object, elements, class_name_of, is_meta, atom_of, view_of};
ghost use Rattle.st_meaning.specs.StoreView.{with_field_at};

use crate::object::Object;
use crate::text::SharedText;
use crate::value::{Value, ValueKind, Values};
use crate::view::{Atom, AtomKind, View, ViewKind};
use rb_base::Memory;
use std::alloc::Global;
use std::marker::Model;

/// The objects and arrays of a run, by number. Contracts see a `Heap` of runs.
#[derive(Drop)]
pub struct Heap {
    alloc: Global,
    objects: Vec<Object>,
    arrays: Vec<Values>,
}

impl Model for Heap {
    ghost use Rattle.run_model.specs.Store as run;

    ghost Value = { run.Heap };

    ghost view = { λ a. record { objects = a.objects.items; arrays = a.arrays.items } };
}

impl Heap {
    /// No objects and no arrays, which takes no memory.
    pub fn new(alloc: Global) -> Heap
        ensures { result ≡ record { objects = []; arrays = [] } }
    {
        Heap {
            alloc,
            objects: Vec::new(alloc),
            arrays: Vec::new(alloc),
        }
    }

    /// How many objects there are, which is the number of the next one.
    pub fn object_count(&self) -> usize
        ensures { result ≡ length self.now.objects }
    {
        self.objects.len()
    }

    /// How many arrays there are, which is the number of the next one.
    pub fn array_count(&self) -> usize
        ensures { result ≡ length self.now.arrays }
    {
        self.arrays.len()
    }

    /// The object of a number, from 0.
    pub fn object(&self, number: usize) -> Option<&Object>
        ensures { option_copied result ≡ slice_get self.now.objects number }
    {
        self.objects.get(number)
    }

    /// The elements of the array of a number, from 0; none where there is no such array.
    pub fn elements(&self, number: usize) -> &[Value]
        ensures { result.now ≡ elements self.now number }
    {
        match self.arrays.get(number) {
            Some(values) => values.as_slice(),
            None => &[],
        }
    }

    /// A new object, and its number.
    pub fn add_object(&mut self, object: Object) -> Result<usize, Memory>
        ensures number { IfOk result (λ k. k ≡ length self.old.objects) }
        ensures ok { OnOk result (self.new ≡ with_object self.old object) }
        ensures err { OnErr result (self.new ≡ self.old) }
    {
        let number = self.objects.len();
        self.objects.push(object)?;
        Ok(number)
    }

    /// A new array, and its number.
    pub fn add_array(&mut self, values: Values) -> Result<usize, Memory>
        ensures number { IfOk result (λ k. k ≡ length self.old.arrays) }
        ensures ok { OnOk result (self.new ≡ with_array self.old values) }
        ensures err { OnErr result (self.new ≡ self.old) }
    {
        let number = self.arrays.len();
        self.arrays.push(values)?;
        Ok(number)
    }

    /// Puts a value into an array, at a place from 0; nothing where there is no such place.
    pub fn set_element(&mut self, number: usize, at: usize, value: Value)
        ensures { self.new ≡ record self.old { arrays = set self.old.arrays number (set (elements self.old number) at value) } }
    {
        if number < self.arrays.len() {
            self.arrays[number].set(at, value);
        }
    }

    /// Sets an instance variable of an object; nothing where there is no such object.
    pub fn set_field(
        &mut self,
        number: usize,
        name: &SharedText,
        value: Value,
    ) -> Result<(), Memory>
        ensures ok { OnOk result (self.new ≡ with_field_at self.old number name.now value) }
        ensures err { OnErr result (self.new ≡ self.old) }
    {
        if number < self.objects.len() {
            self.objects[number].set_field(name, value)?;
        }
        Ok(())
    }

    /// The name of the class of a value. A class is given by its own name.
    pub fn class_name<'a>(&'a self, value: &'a Value) -> &'a [u8]
        ensures { result.now ≡ class_name_of self.now value.now }
    {
        match &value.kind {
            ValueKind::Nil => b"UndefinedObject",
            ValueKind::True => b"True",
            ValueKind::False => b"False",
            ValueKind::Int(_) => b"Integer",
            ValueKind::Char(_) => b"Character",
            ValueKind::Str(_) => b"String",
            ValueKind::Sym(_) => b"Symbol",
            ValueKind::Class(name) => name.as_slice(),
            ValueKind::Object(number) => self.object_class(*number),
            ValueKind::Array(_) => b"Array",
            ValueKind::Closure(_) => b"Block",
            ValueKind::Transcript => b"TextCollector",
        }
    }

    fn object_class(&self, number: usize) -> &[u8]
        ensures { result.now ≡ class_of_object self.now number }
    {
        match self.objects.get(number) {
            Some(object) => object.class().as_slice(),
            None => &[],
        }
    }

    /// What is seen of a value inside an array.
    pub fn atom_of(&self, value: &Value) -> Result<Atom, Memory>
        ensures { IfOk result (λ atom. atom ≡ atom_of self.now value.now) }
    {
        let kind = match &value.kind {
            ValueKind::Nil => AtomKind::Nil,
            ValueKind::True => AtomKind::True,
            ValueKind::False => AtomKind::False,
            ValueKind::Int(number) => AtomKind::Int(*number),
            ValueKind::Char(byte) => AtomKind::Char(*byte),
            ValueKind::Str(text) => AtomKind::Str(text.share()?),
            ValueKind::Sym(text) => AtomKind::Sym(text.share()?),
            ValueKind::Class(name) => AtomKind::Class(name.share()?),
            ValueKind::Object(number) => {
                let class = self.object_class(*number);
                AtomKind::Object(SharedText::from_slice(self.alloc, class)?)
            }
            ValueKind::Array(number) => AtomKind::Array(self.elements(*number).len()),
            ValueKind::Closure(_) => AtomKind::Block,
            ValueKind::Transcript => AtomKind::Transcript,
        };
        Ok(Atom { kind })
    }

    fn atoms(&self, values: &[Value]) -> Result<Vec<Atom>, Memory>
        ensures { IfOk result (λ atoms. atoms.items ≡ map (atom_of self.now) values.now) }
    {
        let mut atoms = Vec::new(self.alloc);
        for value in values {
            atoms.push(self.atom_of(value)?)?;
        }
        Ok(atoms)
    }

    /// What is seen of a value: of an array its elements.
    pub fn view_of(&self, value: &Value) -> Result<View, Memory>
        ensures { IfOk result (λ view. view ≡ view_of self.now value.now) }
    {
        let kind = match &value.kind {
            ValueKind::Array(number) => ViewKind::Items(self.atoms(self.elements(*number))?),
            _ => ViewKind::One(self.atom_of(value)?),
        };
        Ok(View { kind })
    }
}
