// The texts of names, shared.
ghost use Rattle.std.specs.Prelude.{◌≡◌, IfOk, take};
ghost use Rattle.rb_base.specs.Names.{name_at};

use crate::text::SharedText;
use rb_base::{Memory, NameId, Names};
use std::alloc::Global;
use std::marker::Model;

/// The texts of the names of a table, by their numbers, so that a run has each of them once. Contracts see the list of
/// the texts.
#[derive(Drop)]
pub struct SharedNames {
    alloc: Global,
    texts: Vec<SharedText>,
}

impl Model for SharedNames {
    ghost use Rattle.std.specs.Prelude.{ℕ, List};

    ghost Value = { List (List ℕ) };

    ghost view = { λ a. a.texts.items };
}

impl SharedNames {
    /// The texts of a table of names.
    pub fn new(alloc: Global, names: &Names) -> Result<SharedNames, Memory>
        ensures { IfOk result (λ texts. texts ≡ names.now) }
    {
        let mut texts = Vec::new(alloc);
        for number in 0..names.len() {
            let text = names.text_of(NameId(number));
            texts.push(SharedText::from_slice(alloc, text)?)?;
        }
        Ok(SharedNames { alloc, texts })
    }

    /// The text of a number, and the empty text where there is none.
    pub fn text(&self, id: NameId) -> Result<SharedText, Memory>
        ensures { IfOk result (λ text. text ≡ name_at self.now id) }
    {
        match self.texts.get(id.0) {
            Some(text) => text.share(),
            None => SharedText::from_slice(self.alloc, &[]),
        }
    }

    /// The bytes of the text of a number, and none where there is no text.
    pub fn as_slice(&self, id: NameId) -> &[u8]
        ensures { result.now ≡ name_at self.now id }
    {
        match self.texts.get(id.0) {
            Some(text) => text.as_slice(),
            None => &[],
        }
    }
}
