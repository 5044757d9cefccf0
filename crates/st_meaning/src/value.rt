// Values.
ghost use Rattle.std.specs.Prelude.{◌≡◌, [], ◌∷◌, ◌++◌, length, set, replicate, IfOk, OnOk, OnErr};
ghost use Rattle.run_model.specs.Values.{nil_value, true_value, false_value, int_value, char_value, string_value, symbol_value, class_value, object_value, array_value, closure_value, transcript_value};
ghost use Rattle.run_model.specs.Views.{is_meta, same_value};
ghost use Rattle.run_model.specs.Calls.{truth};
ghost use Rattle.st_meaning.specs.ValueView.{value_of};

use crate::text::SharedText;
use rb_base::Memory;
use std::alloc::Global;
use std::marker::Model;

/// A value. Contracts see it as abstract data, a `Value` of runs.
#[derive(Drop)]
pub struct Value {
    /// What the value is.
    pub kind: ValueKind,
}

/// What a value is.
#[derive(Drop)]
pub enum ValueKind {
    Nil,
    True,
    False,
    Int(i64),
    /// A character, by its byte.
    Char(u8),
    /// A string, by its bytes.
    Str(SharedText),
    /// A symbol, by its bytes.
    Sym(SharedText),
    /// A class, by its name.
    Class(SharedText),
    /// An object, by its number in the heap, from 0.
    Object(usize),
    /// An array, by its number in the heap, from 0.
    Array(usize),
    /// A closure, by its number in the store, from 0.
    Closure(usize),
    Transcript,
}

impl Model for Value {
    ghost use Rattle.run_model.specs.Values as run;

    ghost Value = { run.Value };

    ghost use Rattle.st_meaning.specs.ValueView.{value_of};

    ghost view = { λ a. value_of a.kind };
}

impl Value {
    /// The value of a kind.
    pub fn new(kind: ValueKind) -> Value
        ensures { result ≡ value_of kind }
    {
        Value { kind }
    }

    /// `nil`.
    pub fn nil() -> Value
        ensures { result ≡ nil_value }
    {
        Value {
            kind: ValueKind::Nil,
        }
    }

    /// `true` or `false`.
    pub fn truth(holds: bool) -> Value
        ensures { result ≡ truth holds }
    {
        if holds {
            Value::new(ValueKind::True)
        } else {
            Value::new(ValueKind::False)
        }
    }

    /// Whether the value is a class, so that what it understands is on its class side.
    pub fn is_class(&self) -> bool
        ensures { result ≡ is_meta self.now }
    {
        matches!(self.kind, ValueKind::Class(_))
    }

    /// The same value once more. Want of memory comes only where the owners of a text cannot be counted any more.
    pub fn share(&self) -> Result<Value, Memory>
        ensures { IfOk result (λ value. value ≡ self.now) }
    {
        let kind = match &self.kind {
            ValueKind::Nil => ValueKind::Nil,
            ValueKind::True => ValueKind::True,
            ValueKind::False => ValueKind::False,
            ValueKind::Int(number) => ValueKind::Int(*number),
            ValueKind::Char(byte) => ValueKind::Char(*byte),
            ValueKind::Str(text) => ValueKind::Str(text.share()?),
            ValueKind::Sym(text) => ValueKind::Sym(text.share()?),
            ValueKind::Class(name) => ValueKind::Class(name.share()?),
            ValueKind::Object(number) => ValueKind::Object(*number),
            ValueKind::Array(number) => ValueKind::Array(*number),
            ValueKind::Closure(number) => ValueKind::Closure(*number),
            ValueKind::Transcript => ValueKind::Transcript,
        };
        Ok(Value { kind })
    }

    /// Whether both are the same: of one kind and contents, and objects, arrays and closures the very same.
    pub fn same(&self, other: &Value) -> bool
        ensures { result ≡ same_value self.now other.now }
    {
        match (&self.kind, &other.kind) {
            (ValueKind::Nil, ValueKind::Nil) => true,
            (ValueKind::True, ValueKind::True) => true,
            (ValueKind::False, ValueKind::False) => true,
            (ValueKind::Int(a), ValueKind::Int(b)) => *a == *b,
            (ValueKind::Char(a), ValueKind::Char(b)) => *a == *b,
            (ValueKind::Str(a), ValueKind::Str(b)) => a.same(b),
            (ValueKind::Sym(a), ValueKind::Sym(b)) => a.same(b),
            (ValueKind::Class(a), ValueKind::Class(b)) => a.same(b),
            (ValueKind::Object(a), ValueKind::Object(b)) => *a == *b,
            (ValueKind::Array(a), ValueKind::Array(b)) => *a == *b,
            (ValueKind::Closure(a), ValueKind::Closure(b)) => *a == *b,
            (ValueKind::Transcript, ValueKind::Transcript) => true,
            _ => false,
        }
    }
}

/// Values in order. Contracts see a list.
#[derive(Drop)]
pub struct Values {
    pub(crate) items: Vec<Value>,
}

impl Model for Values {
    ghost use Rattle.std.specs.Prelude.{List};
    ghost use Rattle.run_model.specs.Values as run;

    ghost Value = { List run.Value };

    ghost view = { λ a. a.items.items };
}

impl Values {
    /// No values, which takes no memory.
    pub fn new(alloc: Global) -> Values
        ensures { result ≡ [] }
    {
        Values {
            items: Vec::new(alloc),
        }
    }

    /// Copies of values, each for one more owner.
    pub fn from_slice(alloc: Global, values: &[Value]) -> Result<Values, Memory>
        ensures { IfOk result (λ copies. copies ≡ values.now) }
    {
        let mut copies = Values::new(alloc);
        copies.push_slice(values)?;
        Ok(copies)
    }

    /// So many values that are nil.
    pub fn nils(alloc: Global, count: usize) -> Result<Values, Memory>
        ensures { IfOk result (λ nils. nils ≡ replicate count nil_value) }
    {
        let mut items = Vec::new(alloc);
        while items.len() < count {
            items.push(Value::nil())?;
        }
        Ok(Values { items })
    }

    /// The values.
    pub fn as_slice(&self) -> &[Value]
        ensures { result.now ≡ self.now }
    {
        self.items.as_slice()
    }

    /// How many values there are.
    pub fn len(&self) -> usize
        ensures { result ≡ length self.now }
    {
        self.items.len()
    }

    /// Puts a value at a place, from 0; nothing where there is no such place.
    pub fn set(&mut self, at: usize, value: Value)
        ensures { self.new ≡ set self.old at value }
    {
        if at < self.items.len() {
            self.items[at] = value;
        }
    }

    /// Appends a value; on want of memory it is dropped.
    pub fn push(&mut self, value: Value) -> Result<(), Memory>
        ensures ok { OnOk result (self.new ≡ self.old ++ value ∷ []) }
        ensures err { OnErr result (self.new ≡ self.old) }
    {
        self.items.push(value)?;
        Ok(())
    }

    /// Appends the values, each for one more owner; on want of memory some may be appended.
    pub fn push_slice(&mut self, values: &[Value]) -> Result<(), Memory>
        ensures { IfOk result (λ _. self.new ≡ self.old ++ values.now) }
    {
        append(&mut self.items, values)
    }
}

/// Appends the values, each for one more owner.
fn append(items: &mut Vec<Value>, values: &[Value]) -> Result<(), Memory>
    ensures { IfOk result (λ _. items.new.items ≡ items.old.items ++ values.now) }
{
    for value in values {
        items.push(value.share()?)?;
    }
    Ok(())
}
