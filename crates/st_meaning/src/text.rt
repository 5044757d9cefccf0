// Texts that several owners share.
ghost use Rattle.std.specs.Prelude.{◌≡◌, IfOk, length};
ghost use Rattle.rb_base.specs.Names.{text_eq};

use rb_base::{Memory, Text};
use std::alloc::Global;
use std::marker::Model;
use std::rc::Rc;

/// A text that several owners share; a further owner takes no copy. Contracts see the list of the bytes.
#[derive(Drop)]
pub struct SharedText {
    text: Rc<Text>,
}

impl Model for SharedText {
    ghost use Rattle.std.specs.Prelude.{ℕ, List};

    ghost Value = { List ℕ };

    ghost view = { λ a. a.text.value };
}

impl SharedText {
    /// The text, which is not copied.
    pub fn new(alloc: Global, text: Text) -> Result<SharedText, Memory>
        ensures { IfOk result (λ shared. shared ≡ text) }
    {
        Ok(SharedText {
            text: Rc::new(alloc, text)?,
        })
    }

    /// A copy of the bytes.
    pub fn from_slice(alloc: Global, bytes: &[u8]) -> Result<SharedText, Memory>
        ensures { IfOk result (λ shared. shared ≡ bytes.now) }
    {
        SharedText::new(alloc, Text::from_slice(alloc, bytes)?)
    }

    /// The same text for one more owner. Want of memory comes only where the owners cannot be counted any more.
    pub fn share(&self) -> Result<SharedText, Memory>
        ensures { IfOk result (λ shared. shared ≡ self.now) }
    {
        Ok(SharedText {
            text: Rc::clone(&self.text)?,
        })
    }

    /// The bytes.
    pub fn as_slice(&self) -> &[u8]
        ensures { result.now ≡ self.now }
    {
        let text: &Text = &self.text;
        text.as_slice()
    }

    /// How many bytes there are.
    pub fn len(&self) -> usize
        ensures { result ≡ length self.now }
    {
        self.as_slice().len()
    }

    /// Whether both have the same bytes.
    pub fn same(&self, other: &SharedText) -> bool
        ensures { result ≡ text_eq self.now other.now }
    {
        same_text(self.as_slice(), other.as_slice())
    }
}

/// Whether both texts have the same bytes.
pub fn same_text(a: &[u8], b: &[u8]) -> bool
    ensures { result ≡ text_eq a.now b.now }
{
    a == b
}
