// Class variables and class-instance variables.
ghost use Rattle.std.specs.Prelude.{◌≡◌, ◌++◌, ◌∷◌, [], position, find, IfOk, OnOk, OnErr};
ghost use Rattle.std.specs.Option.{option_copied};
ghost use Rattle.run_model.specs.Store.{value_of, with_value, same_pair};

use crate::text::{SharedText, same_text};
use crate::value::Value;
use rb_base::Memory;
use std::alloc::Global;
use std::marker::Model;

/// The variables of classes that were set, by the name of the class and their own. Contracts see the list of them in the
/// order in which they were first set.
#[derive(Drop)]
pub struct Variables {
    items: Vec<Variable>,
}

impl Model for Variables {
    ghost use Rattle.std.specs.Prelude.{ℕ, List};
    ghost use Rattle.run_model.specs.Values as run;

    ghost Value = { List ((List ℕ × List ℕ) × run.Value) };

    ghost view = { λ a. a.items.items };
}

/// A variable of a class that was set. Contracts see the name of the class and its own with its value.
#[derive(Drop)]
pub struct Variable {
    class: SharedText,
    name: SharedText,
    value: Value,
}

impl Model for Variable {
    ghost use Rattle.std.specs.Prelude.{ℕ, List};
    ghost use Rattle.run_model.specs.Values as run;

    ghost Value = { (List ℕ × List ℕ) × run.Value };

    ghost view = { λ a. ((a.class, a.name), a.value) };
}

impl Variable {
    fn is_named(&self, class: &[u8], name: &[u8]) -> bool
        ensures { result ≡ same_pair (class.now, name.now) self.now.0 }
    {
        same_text(class, self.class.as_slice()) && same_text(name, self.name.as_slice())
    }

    fn value(&self) -> &Value
        ensures { result.now ≡ self.now.1 }
    {
        &self.value
    }

    fn set(&mut self, value: Value)
        ensures { self.new ≡ (self.old.0, value) }
    {
        self.value = value;
    }
}

fn found<'a>(items: &'a [Variable], class: &[u8], name: &[u8]) -> Option<&'a Variable>
    ensures { option_copied result ≡ find (λ e. same_pair (class.now, name.now) e.0) items.now }
{
    items.iter().find(|variable| variable.is_named(class, name))
}

fn place(items: &[Variable], class: &[u8], name: &[u8]) -> Option<usize>
    ensures { result ≡ position (λ e. same_pair (class.now, name.now) e.0) items.now }
{
    items
        .iter()
        .position(|variable| variable.is_named(class, name))
}

fn set(
    items: &mut Vec<Variable>,
    class: &SharedText,
    name: &SharedText,
    value: Value,
) -> Result<(), Memory>
    ensures ok { OnOk result (items.new.items ≡ with_value same_pair items.old.items (class.now, name.now) value) }
    ensures err { OnErr result (items.new.items ≡ items.old.items) }
{
    match place(items, class.as_slice(), name.as_slice()) {
        Some(at) => {
            items[at].set(value);
        }
        None => {
            let class = class.share()?;
            let name = name.share()?;
            items.push(Variable { class, name, value })?;
        }
    }
    Ok(())
}

impl Variables {
    /// No variables, which takes no memory.
    pub fn new(alloc: Global) -> Variables
        ensures { result ≡ [] }
    {
        Variables {
            items: Vec::new(alloc),
        }
    }

    /// The value of a variable, and nil where it was not set.
    pub fn value(&self, class: &[u8], name: &[u8]) -> Result<Value, Memory>
        ensures { IfOk result (λ value. value ≡ value_of same_pair self.now (class.now, name.now)) }
    {
        match found(&self.items, class, name) {
            Some(variable) => variable.value().share(),
            None => Ok(Value::nil()),
        }
    }

    /// Sets a variable.
    pub fn set(&mut self, class: &SharedText, name: &SharedText, value: Value) -> Result<(), Memory>
        ensures ok { OnOk result (self.new ≡ with_value same_pair self.old (class.now, name.now) value) }
        ensures err { OnErr result (self.new ≡ self.old) }
    {
        set(&mut self.items, class, name, value)
    }
}
