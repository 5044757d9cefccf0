// The values of literals.
ghost use Rattle.std.specs.Prelude.{◌≡◌, IfOk};
ghost use Rattle.run_model.specs.Values.{string_value, symbol_value};
ghost use Rattle.run_model.specs.Store.{Store as run_store};
ghost use Rattle.run_model.specs.Acts.{acts};
ghost use Rattle.run_model.specs.Numbers.{numeral_integer};
ghost use Rattle.run_model.specs.Eval.{word_value, gives_integer, literal_value, literal_values};
ghost use Rattle.st_meaning.specs.StoreView.{store_of};
ghost use Rattle.st_literals.specs.Given.{given, literal_at, literals_at};

use crate::numerals::numeral;
use rb_base::Memory;
use st_meaning::{SharedNames, SharedText, Store, Value, ValueKind, Values, same_text};
use st_tree::{Literal, LiteralKind};
use std::alloc::Global;

/// The integer that a numeral is, if it is one of 64 bits.
fn integer(text: &[u8]) -> Option<Value>
    ensures { (s : run_store) → given result s ≡ gives_integer acts (numeral_integer text.now) s }
{
    match numeral(text) {
        Some(number) => Some(Value::new(ValueKind::Int(number))),
        None => None,
    }
}

/// The string of these bytes.
fn string(alloc: Global, text: &[u8]) -> Result<Value, Memory>
    ensures { IfOk result (λ v. v ≡ string_value text.now) }
{
    let text = SharedText::from_slice(alloc, text)?;
    Ok(Value::new(ValueKind::Str(text)))
}

/// The symbol of these bytes.
fn symbol(alloc: Global, text: &[u8]) -> Result<Value, Memory>
    ensures { IfOk result (λ v. v ≡ symbol_value text.now) }
{
    let text = SharedText::from_slice(alloc, text)?;
    Ok(Value::new(ValueKind::Sym(text)))
}

/// The value of a word inside an array: `true`, `false`, or else `nil`.
fn word(name: &[u8]) -> Value
    ensures { result ≡ word_value name.now }
{
    if same_text(name, b"true") {
        Value::new(ValueKind::True)
    } else if same_text(name, b"false") {
        Value::new(ValueKind::False)
    } else {
        Value::nil()
    }
}

/// The value of a literal, where `names` are the texts of the names in it; each array in it is a new one. `None` where
/// it is only kept, as a numeral with a fraction or over 64 bits, or a byte array, or holds one that is.
#[cycle(literal)]
pub fn literal(
    store: &mut Store<'_>,
    names: &SharedNames,
    literal: &Literal,
) -> Result<Option<Value>, Memory>
    ensures value { IfOk result (λ v. given v (store_of names.now store.new) ≡ literal_value acts (literal_at names.now literal.now) (store_of names.now store.old)) }
    ensures ticks { IfOk result (λ v. store.new.ticks ≡ store.old.ticks) }
{
    match &literal.kind {
        LiteralKind::Number { text } => Ok(integer(text.as_slice())),
        LiteralKind::Str { text } => Ok(Some(string(store.alloc, text.as_slice())?)),
        LiteralKind::Symbol { text } => Ok(Some(symbol(store.alloc, text.as_slice())?)),
        LiteralKind::Char { byte } => Ok(Some(Value::new(ValueKind::Char(*byte)))),
        LiteralKind::Array { items } => {
            match literals(store, names, items.as_slice())? {
                Some(values) => Ok(Some(store.new_array(values)?)),
                None => Ok(None),
            }
        }
        LiteralKind::Bytes { .. } => Ok(None),
        LiteralKind::Word { name } => Ok(Some(word(names.as_slice(*name)))),
    }
}

/// The values of literals in order; `None` where one is only kept.
#[cycle(literal)]
#[tactic(auto, using(crate::proofs::Items::item_weight))]
fn literals(
    store: &mut Store<'_>,
    names: &SharedNames,
    items: &[Literal],
) -> Result<Option<Values>, Memory>
    ensures value { IfOk result (λ vs. given vs (store_of names.now store.new) ≡ literal_values acts (literals_at names.now items.now) (store_of names.now store.old)) }
    ensures ticks { IfOk result (λ vs. store.new.ticks ≡ store.old.ticks) }
{
    let mut values = Values::new(store.alloc);
    for item in items {
        match literal(store, names, item)? {
            Some(value) => values.push(value)?,
            None => return Ok(None),
        }
    }
    Ok(Some(values))
}
