// Names by number, lists of them, texts and places in texts.
ghost use Rattle.std.specs.Prelude.{◌≡◌, ◌∷◌, ◌++◌, [], length, IfOk, OnOk, OnErr, IsTrue, ◌↔◌};
ghost use Rattle.rb_base.specs.Bytes.{bytes_of};

use crate::memory::Memory;
use crate::short::{ROOM, Short};
use std::alloc::Global;
use std::marker::Model;

/// The number of a name in a table of names, from 0. Contracts see the number.
#[derive(Clone, Copy, Debug)]
pub struct NameId(pub usize);

impl Model for NameId {
    ghost use Rattle.std.specs.Prelude.{ℕ};

    ghost Value = { ℕ };

    ghost view = { λ a. a.0 };

    ghost inverse = { λ n. record { 0 = n } };
}

impl PartialEq for NameId {
    ghost use Rattle.std.specs.Prelude.{◌==◌};
    ghost use Rattle.std.proofs.Common.{rules};
    ghost use Rattle.std.specs.Cmp.Rules.{comparing};

    ghost eq = { λ a b. a == b };

    ghost laws = { Prim.search (comparing, rules) };

    fn eq(&self, other: &NameId) -> bool {
        self.0 == other.0
    }
}

impl Eq for NameId {
    ghost use Rattle.std.proofs.Common.{rules};
    ghost use Rattle.std.specs.Cmp.Rules.{comparing};

    ghost laws = { Prim.search (comparing, rules) };
}

/// A piece of a text: from the offset `from` up to, and without, the offset `to`, in bytes from 0.
#[derive(Clone, Copy, Debug, PartialEq, Eq)]
pub struct Span {
    pub from: usize,
    pub to: usize,
}

/// A text that owns its bytes. Contracts see the list of the bytes. A text of at most 14 bytes takes no memory.
pub struct Text {
    alloc: Global,
    bytes: Bytes,
}

// Written out, so that for a proof the end of a text is one call, whether it is short or long.
impl Drop for Text {
    #[inline]
    fn drop(self) {
        let Text { alloc: _, bytes: _ } = self;
    }
}

/// Where the bytes of a text stand: in the text itself, or in memory of their own. A text that became long stays long.
#[derive(Drop)]
enum Bytes {
    Short(Short),
    Long(Box<Vec<u8>>),
}

impl Model for Text {
    ghost use Rattle.std.specs.Prelude.{ℕ, List};

    ghost Value = { List ℕ };

    ghost use Rattle.rb_base.specs.Bytes.{bytes_of};

    ghost view = { λ a. bytes_of a.bytes };
}

/// The first bytes and behind them the second ones, in the text itself where they fit.
fn joined(alloc: Global, first: &[u8], second: &[u8]) -> Result<Bytes, Memory>
    ensures { IfOk result (λ bytes. bytes_of bytes ≡ first.now ++ second.now) }
{
    if first.len() <= ROOM && second.len() <= ROOM - first.len() {
        return Ok(Bytes::Short(Short::joined(first, second)));
    }
    let mut bytes = Vec::new(alloc);
    bytes.reserve(first.len().saturating_add(second.len()))?;
    bytes.extend_from_slice(first)?;
    bytes.extend_from_slice(second)?;
    Ok(Bytes::Long(Box::new(alloc, bytes)?))
}

impl Text {
    /// The empty text, which takes no memory.
    #[inline]
    pub fn new(alloc: Global) -> Text
        ensures { result ≡ [] }
    {
        Text {
            alloc,
            bytes: Bytes::Short(Short::empty()),
        }
    }

    /// A copy of the bytes.
    #[inline]
    pub fn from_slice(alloc: Global, bytes: &[u8]) -> Result<Text, Memory>
        ensures { IfOk result (λ text. text ≡ bytes.now) }
    {
        let bytes = if bytes.len() <= ROOM {
            Bytes::Short(Short::of(bytes))
        } else {
            Bytes::Long(Box::new(alloc, Vec::from_slice(alloc, bytes)?)?)
        };
        Ok(Text { alloc, bytes })
    }

    /// The text of these bytes, which are copied only where there are at most 14.
    pub fn from_vec(alloc: Global, bytes: Vec<u8>) -> Result<Text, Memory>
        ensures { IfOk result (λ text. text ≡ bytes.items) }
    {
        let bytes = if bytes.len() <= ROOM {
            Bytes::Short(Short::of(bytes.as_slice()))
        } else {
            Bytes::Long(Box::new(alloc, bytes)?)
        };
        Ok(Text { alloc, bytes })
    }

    /// The bytes.
    #[inline]
    pub fn as_slice(&self) -> &[u8]
        ensures { result.now ≡ self.now }
    {
        match &self.bytes {
            Bytes::Short(bytes) => bytes.as_slice(),
            Bytes::Long(bytes) => bytes.as_slice(),
        }
    }

    /// Appends the bytes.
    pub fn push_slice(&mut self, bytes: &[u8]) -> Result<(), Memory>
        ensures ok { OnOk result (self.new ≡ self.old ++ bytes.now) }
        ensures err { OnErr result (self.new ≡ self.old) }
    {
        match &mut self.bytes {
            Bytes::Short(short) => {
                let grown = joined(self.alloc, short.as_slice(), bytes)?;
                self.bytes = grown;
            }
            Bytes::Long(long) => long.extend_from_slice(bytes)?,
        }
        Ok(())
    }

    /// A copy.
    pub fn try_copy(&self, alloc: Global) -> Result<Text, Memory>
        ensures { IfOk result (λ text. text ≡ self.now) }
    {
        Text::from_slice(alloc, self.as_slice())
    }

    /// Whether both have the same bytes.
    pub fn same(&self, other: &Text) -> bool
        ensures { IsTrue result ↔ (self.now ≡ other.now) }
    {
        self.as_slice() == other.as_slice()
    }
}

/// Names in order. Contracts see the list of their numbers.
pub struct Ids {
    items: Vec<NameId>,
}

// Written out, so that for a proof the end of a list of names is one call.
impl Drop for Ids {
    fn drop(self) {
        let Ids { items: _ } = self;
    }
}

impl Model for Ids {
    ghost use Rattle.std.specs.Prelude.{ℕ, List};

    ghost Value = { List ℕ };

    ghost view = { λ a. a.items.items };
}

impl Ids {
    /// No names, which takes no memory.
    pub fn new(alloc: Global) -> Ids
        ensures { result ≡ [] }
    {
        Ids {
            items: Vec::new(alloc),
        }
    }

    /// The list of these names, which are not copied.
    pub fn from_vec(items: Vec<NameId>) -> Ids
        ensures { result ≡ items.items }
    {
        Ids { items }
    }

    /// The names, which are not copied.
    pub fn into_vec(self) -> Vec<NameId>
        ensures { result.items ≡ self }
    {
        let Ids { items } = self;
        items
    }

    /// The names.
    pub fn as_slice(&self) -> &[NameId]
        ensures { result.now ≡ self.now }
    {
        self.items.as_slice()
    }

    /// How many names there are.
    pub fn len(&self) -> usize
        ensures { result ≡ length self.now }
    {
        self.items.len()
    }

    /// Whether there is no name.
    pub fn is_empty(&self) -> bool
        ensures { IsTrue result ↔ (self.now ≡ []) }
    {
        self.items.is_empty()
    }

    /// Appends a name.
    pub fn push(&mut self, name: NameId) -> Result<(), Memory>
        ensures ok { OnOk result (self.new ≡ self.old ++ name ∷ []) }
        ensures err { OnErr result (self.new ≡ self.old) }
    {
        self.items.push(name)?;
        Ok(())
    }

    /// A copy.
    pub fn try_copy(&self, alloc: Global) -> Result<Ids, Memory>
        ensures { IfOk result (λ names. names ≡ self.now) }
    {
        Ok(Ids {
            items: Vec::from_slice(alloc, self.as_slice())?,
        })
    }

    /// Whether both have the same names in the same order.
    pub fn same(&self, other: &Ids) -> bool
        ensures { IsTrue result ↔ (self.now ≡ other.now) }
    {
        same_names(self.as_slice(), other.as_slice())
    }
}

/// Whether both lists have the same names in the same order.
fn same_names(a: &[NameId], b: &[NameId]) -> bool
    ensures { IsTrue result ↔ (a.now ≡ b.now) }
{
    a == b
}
