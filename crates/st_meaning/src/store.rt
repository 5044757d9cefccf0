// What a run holds.
ghost use Rattle.std.specs.Prelude.{◌≡◌, ◌≤◌, ◌-◌, ◌++◌, ◌∷◌, [], ℕ, List, length, map, slice_get, option_map, IfOk};
ghost use Rattle.rb_base.specs.Names.{name_at};
ghost use Rattle.run_model.specs.Values.{Name, Value as run_value, closure_value, array_value};
ghost use Rattle.run_model.specs.Store.{Store as run_store, start, value_in_cell, with_cell, with_new_cells, with_closure, with_home, without_home, lives, arity_in, field_of, with_field, class_side_of, with_class_side, value_of, same_pair, with_shared, with_array};
ghost use Rattle.run_model.specs.Acts.{pays};
ghost use Rattle.run_model.specs.Eval.{held, in_cells, inside};
ghost use Rattle.st_meaning.specs.StoreView.{closure_of, memory_of, store_of, changed_by, paid};

use crate::context::Context;
use crate::event::Event;
use crate::heap::Heap;
use crate::names::SharedNames;
use crate::slots::{hold, make_cells};
use crate::text::SharedText;
use crate::value::{Value, ValueKind, Values};
use crate::variables::Variables;
use rb_base::{Ids, Memory};
use st_tree::Sequence;
use std::alloc::Global;
use std::rc::Rc;

/// A closure: a block's parameters and sequence, and where the block was evaluated.
#[derive(Drop)]
pub struct Closure<'p> {
    pub parameters: &'p Ids,
    pub body: &'p Sequence,
    pub context: Rc<Context>,
}

/// What a run holds. `store_of` in specs/ is the store of runs for which it stands.
#[derive(Drop)]
pub struct Store<'p> {
    pub alloc: Global,
    pub heap: Heap,
    /// Class variables, by the class that defines them.
    pub shared: Variables,
    /// Class-instance variables.
    pub class_side: Variables,
    /// The cells of temporaries.
    pub cells: Vec<Value>,
    pub closures: Vec<Closure<'p>>,
    /// For each home whether it lives.
    pub homes: Vec<bool>,
    /// The events so far.
    pub events: Vec<Event>,
    /// How many ticks are left.
    pub ticks: u32,
}

impl<'p> Store<'p> {
    /// The store at the start of a run with so many ticks.
    pub fn new(alloc: Global, ticks: u32) -> Store<'p>
        ensures { (names : List Name) → store_of names result ≡ start ticks }
    {
        Store {
            alloc,
            heap: Heap::new(alloc),
            shared: Variables::new(alloc),
            class_side: Variables::new(alloc),
            cells: Vec::new(alloc),
            closures: Vec::new(alloc),
            homes: Vec::new(alloc),
            events: Vec::new(alloc),
            ticks,
        }
    }

    /// Takes so many ticks, and answers whether they were left; where fewer are left these are taken.
    pub fn pay(&mut self, ticks: usize) -> bool
        ensures store { (names : List Name) (a : run_value) → paid result a (store_of names self.new) ≡ pays ticks a (store_of names self.old) }
        ensures ticks { self.new.ticks ≤ self.old.ticks }
        ensures rest { self.new ≡ record self.old { ticks = self.new.ticks } }
    {
        let left = self.ticks as usize;
        if ticks <= left {
            self.ticks = (left - ticks) as u32;
            true
        } else {
            self.ticks = 0;
            false
        }
    }

    /// Tells an event. On want of memory it is not told.
    pub fn tell(&mut self, event: Event) -> Result<(), Memory>
        ensures store { IfOk result (λ _. (names : List Name) → store_of names self.new ≡ (let s = store_of names self.old in record s { events = s.events ++ event ∷ [] })) }
        ensures ticks { self.new.ticks ≡ self.old.ticks }
        ensures rest { self.new ≡ record self.old { events = self.new.events } }
    {
        self.events.push(event)?;
        Ok(())
    }

    /// The value in the cell of a number, and nil where there is no such cell.
    pub fn cell(&self, number: usize) -> Result<Value, Memory>
        ensures { IfOk result (λ value. (names : List Name) → value ≡ value_in_cell (memory_of names self.now) number) }
    {
        match self.cells.get(number) {
            Some(value) => value.share(),
            None => Ok(Value::nil()),
        }
    }

    /// Puts a value into the cell of a number; nothing where there is no such cell.
    pub fn set_cell(&mut self, number: usize, value: Value)
        ensures store { (names : List Name) → store_of names self.new ≡ changed_by (λ m. with_cell m number value) (store_of names self.old) }
        ensures ticks { self.new.ticks ≡ self.old.ticks }
    {
        if number < self.cells.len() {
            self.cells[number] = value;
        }
    }

    /// The instance variable of an object that is `me`; nil where it was not set, and where `me` is no object.
    pub fn field(&self, me: &Value, name: &[u8]) -> Result<Value, Memory>
        ensures { IfOk result (λ value. (names : List Name) → value ≡ field_of (memory_of names self.now) me.now name.now) }
    {
        let ValueKind::Object(number) = &me.kind else {
            return Ok(Value::nil());
        };
        match self.heap.object(*number) {
            Some(object) => object.field(name),
            None => Ok(Value::nil()),
        }
    }

    /// Sets the instance variable of an object that is `me`; nothing where `me` is no object.
    pub fn set_field(&mut self, me: &Value, name: &SharedText, value: Value) -> Result<(), Memory>
        ensures store { IfOk result (λ _. (names : List Name) → store_of names self.new ≡ changed_by (λ m. with_field m me.now name.now value) (store_of names self.old)) }
        ensures ticks { self.new.ticks ≡ self.old.ticks }
    {
        if let ValueKind::Object(number) = &me.kind {
            self.heap.set_field(*number, name, value)?;
        }
        Ok(())
    }

    /// The class-instance variable of a class that is `me`; nil where it was not set, and where `me` is no class.
    pub fn class_side_field(&self, me: &Value, name: &[u8]) -> Result<Value, Memory>
        ensures { IfOk result (λ value. (names : List Name) → value ≡ class_side_of (memory_of names self.now) me.now name.now) }
    {
        match &me.kind {
            ValueKind::Class(class) => self.class_side.value(class.as_slice(), name),
            _ => Ok(Value::nil()),
        }
    }

    /// Sets the class-instance variable of a class that is `me`; nothing where `me` is no class.
    pub fn set_class_side_field(
        &mut self,
        me: &Value,
        name: &SharedText,
        value: Value,
    ) -> Result<(), Memory>
        ensures store { IfOk result (λ _. (names : List Name) → store_of names self.new ≡ changed_by (λ m. with_class_side m me.now name.now value) (store_of names self.old)) }
        ensures ticks { self.new.ticks ≡ self.old.ticks }
    {
        if let ValueKind::Class(class) = &me.kind {
            self.class_side.set(class, name, value)?;
        }
        Ok(())
    }

    /// A class variable, by the name of the class that defines it and its own; nil where it was not set.
    pub fn shared_variable(&self, class: &[u8], name: &[u8]) -> Result<Value, Memory>
        ensures { IfOk result (λ value. (names : List Name) → value ≡ value_of same_pair (memory_of names self.now).shared (class.now, name.now)) }
    {
        self.shared.value(class, name)
    }

    /// Sets a class variable.
    pub fn set_shared_variable(
        &mut self,
        class: &SharedText,
        name: &SharedText,
        value: Value,
    ) -> Result<(), Memory>
        ensures store { IfOk result (λ _. (names : List Name) → store_of names self.new ≡ changed_by (λ m. with_shared m class.now name.now value) (store_of names self.old)) }
        ensures ticks { self.new.ticks ≡ self.old.ticks }
    {
        self.shared.set(class, name, value)
    }

    /// A new array.
    pub fn new_array(&mut self, values: Values) -> Result<Value, Memory>
        ensures value { IfOk result (λ value. value ≡ array_value (length self.old.heap.arrays)) }
        ensures store { IfOk result (λ _. (names : List Name) → store_of names self.new ≡ changed_by (λ m. record m { heap = with_array m.heap values }) (store_of names self.old)) }
        ensures ticks { self.new.ticks ≡ self.old.ticks }
    {
        let number = self.heap.add_array(values)?;
        Ok(Value::new(ValueKind::Array(number)))
    }

    /// A new home, which lives, and its number.
    pub fn new_home(&mut self) -> Result<usize, Memory>
        ensures number { IfOk result (λ number. number ≡ length self.old.homes.items) }
        ensures store { IfOk result (λ _. (names : List Name) → store_of names self.new ≡ changed_by with_home (store_of names self.old)) }
        ensures ticks { self.new.ticks ≡ self.old.ticks }
    {
        let number = self.homes.len();
        self.homes.push(true)?;
        Ok(number)
    }

    /// Ends the home of a number; nothing where there is no such home.
    pub fn end_home(&mut self, number: usize)
        ensures store { (names : List Name) → store_of names self.new ≡ changed_by (λ m. without_home m number) (store_of names self.old) }
        ensures ticks { self.new.ticks ≡ self.old.ticks }
    {
        if number < self.homes.len() {
            self.homes[number] = false;
        }
    }

    /// Whether the home of a number lives.
    pub fn lives(&self, number: usize) -> bool
        ensures { (names : List Name) → result ≡ lives (memory_of names self.now) number }
    {
        number < self.homes.len() && self.homes[number]
    }

    /// A new closure.
    pub fn new_closure(&mut self, closure: Closure<'p>) -> Result<Value, Memory>
        ensures value { IfOk result (λ value. value ≡ closure_value (length self.old.closures.items)) }
        ensures store { IfOk result (λ _. (names : List Name) → store_of names self.new ≡ changed_by (λ m. with_closure m (closure_of names closure.entry)) (store_of names self.old)) }
        ensures ticks { self.new.ticks ≡ self.old.ticks }
    {
        let number = self.closures.len();
        self.closures.push(closure)?;
        Ok(Value::new(ValueKind::Closure(number)))
    }

    /// The closure of a number, from 0.
    pub fn closure(&self, number: usize) -> Option<&Closure<'p>>
        ensures { (names : List Name) → option_map (λ c. closure_of names c.now) result ≡ slice_get (memory_of names self.now).closures number }
    {
        self.closures.get(number)
    }

    /// The context of a sequence inside another: the parameters with their arguments, and the temporaries with new cells
    /// that hold nil. A parameter without an argument is nil.
    pub fn open(
        &mut self,
        outer: &Rc<Context>,
        names: &SharedNames,
        parameters: &Ids,
        arguments: &[Value],
        temporaries: &Ids,
    ) -> Result<Rc<Context>, Memory>
        ensures context { IfOk result (λ context. context.value ≡ inside outer.now.value (held (map (name_at names.now) parameters.now) arguments.now ++ in_cells (map (name_at names.now) temporaries.now) (length self.old.cells.items))) }
        ensures store { IfOk result (λ _. (texts : List Name) → store_of texts self.new ≡ changed_by (λ m. with_new_cells m (map (name_at names.now) temporaries.now)) (store_of texts self.old)) }
        ensures ticks { self.new.ticks ≡ self.old.ticks }
    {
        if parameters.is_empty() && temporaries.is_empty() {
            return Ok(Rc::clone(outer)?);
        }
        let mut slots = Vec::new(self.alloc);
        hold(&mut slots, names, parameters.as_slice(), arguments)?;
        make_cells(&mut slots, &mut self.cells, names, temporaries.as_slice())?;
        Ok(Rc::new(self.alloc, outer.inside(self.alloc, slots)?)?)
    }
}
