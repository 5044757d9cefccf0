// Objects.
ghost use Rattle.std.specs.Prelude.{◌≡◌, ◌++◌, ◌∷◌, [], ℕ, position, find, option_map, unwrap_or, IfOk, OnOk, OnErr};
ghost use Rattle.std.specs.Option.{option_copied};
ghost use Rattle.rb_base.specs.Names.{text_eq};
ghost use Rattle.run_model.specs.Store.{value_of, with_value, object_with};

use crate::text::{SharedText, same_text};
use crate::value::Value;
use rb_base::Memory;
use std::alloc::Global;
use std::marker::Model;

/// An object: its class, and the instance variables that were set. Contracts see an `Object` of runs.
#[derive(Drop)]
pub struct Object {
    class: SharedText,
    fields: Vec<Field>,
}

impl Model for Object {
    ghost use Rattle.run_model.specs.Store as run;

    ghost Value = { run.Object };

    ghost view = { λ a. record { class = a.class; fields = a.fields.items } };
}

/// An instance variable that was set. Contracts see its name with its value.
#[derive(Drop)]
pub struct Field {
    name: SharedText,
    value: Value,
}

impl Model for Field {
    ghost use Rattle.std.specs.Prelude.{ℕ, List};
    ghost use Rattle.run_model.specs.Values as run;

    ghost Value = { List ℕ × run.Value };

    ghost view = { λ a. (a.name, a.value) };
}

impl Field {
    fn is_named(&self, name: &[u8]) -> bool
        ensures { result ≡ text_eq name.now self.now.0 }
    {
        same_text(name, self.name.as_slice())
    }

    fn value(&self) -> &Value
        ensures { result.now ≡ self.now.1 }
    {
        &self.value
    }

    fn set(&mut self, value: Value)
        ensures { self.new ≡ (self.old.0, value) }
    {
        self.value = value;
    }

    fn try_copy(&self) -> Result<Field, Memory>
        ensures { IfOk result (λ field. field ≡ self.now) }
    {
        Ok(Field {
            name: self.name.share()?,
            value: self.value.share()?,
        })
    }
}

fn found<'a>(fields: &'a [Field], name: &[u8]) -> Option<&'a Field>
    ensures { option_copied result ≡ find (λ e. text_eq name.now e.0) fields.now }
{
    fields.iter().find(|field| field.is_named(name))
}

fn place(fields: &[Field], name: &[u8]) -> Option<usize>
    ensures { result ≡ position (λ e. text_eq name.now e.0) fields.now }
{
    fields.iter().position(|field| field.is_named(name))
}

fn set(fields: &mut Vec<Field>, name: &SharedText, value: Value) -> Result<(), Memory>
    ensures ok { OnOk result (fields.new.items ≡ with_value text_eq fields.old.items name.now value) }
    ensures err { OnErr result (fields.new.items ≡ fields.old.items) }
{
    match place(fields, name.as_slice()) {
        Some(at) => {
            fields[at].set(value);
        }
        None => {
            let name = name.share()?;
            fields.push(Field { name, value })?;
        }
    }
    Ok(())
}

fn copied(alloc: Global, fields: &[Field]) -> Result<Vec<Field>, Memory>
    ensures { IfOk result (λ copies. copies.items ≡ fields.now) }
{
    let mut copies = Vec::new(alloc);
    for field in fields {
        copies.push(field.try_copy()?)?;
    }
    Ok(copies)
}

impl Object {
    /// An object of a class, whose instance variables are nil.
    pub fn new(alloc: Global, class: SharedText) -> Object
        ensures { result ≡ record { class = class; fields = [] } }
    {
        Object {
            class,
            fields: Vec::new(alloc),
        }
    }

    /// The name of its class.
    pub fn class(&self) -> &SharedText
        ensures { result.now ≡ self.now.class }
    {
        &self.class
    }

    /// The value of an instance variable, by its name.
    pub fn field(&self, name: &[u8]) -> Result<Value, Memory>
        ensures { IfOk result (λ value. value ≡ value_of text_eq self.now.fields name.now) }
    {
        match found(&self.fields, name) {
            Some(field) => field.value().share(),
            None => Ok(Value::nil()),
        }
    }

    /// Sets an instance variable.
    pub fn set_field(&mut self, name: &SharedText, value: Value) -> Result<(), Memory>
        ensures ok { OnOk result (self.new ≡ object_with self.old name.now value) }
        ensures err { OnErr result (self.new ≡ self.old) }
    {
        set(&mut self.fields, name, value)
    }

    /// An object of the same class with the same values.
    pub fn try_copy(&self, alloc: Global) -> Result<Object, Memory>
        ensures { IfOk result (λ object. object ≡ self.now) }
    {
        Ok(Object {
            class: self.class.share()?,
            fields: copied(alloc, &self.fields)?,
        })
    }
}
