// The table of names.
ghost use Rattle.std.specs.Prelude.{◌≡◌, ◌<◌, [], length, slice_get, IfOk, OnOk, OnErr, Some};
ghost use Rattle.rb_base.specs.Names.{interned, number_in, HasNoTwice};

use crate::memory::Memory;
use crate::text::{NameId, Text};
use std::alloc::Global;
use std::collections::HashMap;
use std::marker::Model;

/// Texts with numbers in the order in which they were first seen. Contracts see the list of the texts.
pub struct Names {
    alloc: Global,
    texts: Vec<Text>,
    numbers: HashMap<Vec<u8>, NameId>,
}

// Written out, so that for a proof the end of a table of names is one call.
impl Drop for Names {
    fn drop(self) {
        let Names {
            alloc: _,
            texts: _,
            numbers: _,
        } = self;
    }
}

impl Model for Names {
    ghost use Rattle.std.specs.Prelude.{ℕ, List};

    ghost Value = { List (List ℕ) };

    ghost view = { λ a. a.texts.items };

    ghost use Rattle.rb_base.specs.NameTable.{KnowsTexts};

    ghost invariant = { λ a. KnowsTexts a.numbers a.texts.items };
}

impl Names {
    /// No names.
    #[tactic(auto, using(crate::proofs::TableLemmas::knows_none))]
    pub fn new(alloc: Global) -> Names
        ensures { result ≡ [] }
    {
        Names {
            alloc,
            texts: Vec::new(alloc),
            numbers: HashMap::new(alloc),
        }
    }

    /// How many names there are.
    #[tactic(auto, using(crate::proofs::TableLemmas::names_distinct))]
    pub fn len(&self) -> usize
        ensures len { result ≡ length self.now }
        ensures distinct { HasNoTwice self.now }
    {
        self.texts.len()
    }

    /// The number of a text.
    pub fn find(&self, text: &[u8]) -> Option<NameId>
        ensures { result ≡ number_in self.now text.now }
    {
        self.numbers.get(text).copied()
    }

    /// The text of a number.
    pub fn text_of(&self, id: NameId) -> &[u8]
        requires { id < length self.now }
        ensures { Some result.now ≡ slice_get self.now id }
    {
        self.texts[id.0].as_slice()
    }

    /// The number of a text, which is added at the end if it is new.
    #[tactic(auto, using(crate::proofs::NamesLemmas::intern_new, crate::proofs::NamesLemmas::number_new))]
    pub fn intern(&mut self, text: &[u8]) -> Result<NameId, Memory>
        ensures ok { OnOk result (self.new ≡ interned self.old text.now) }
        ensures number { IfOk result (λ n. Some n ≡ number_in self.new text.now) }
        ensures err { OnErr result (self.new ≡ self.old) }
    {
        if let Some(number) = self.find(text) {
            return Ok(number);
        }
        let number = NameId(self.len());
        let key = Vec::from_slice(self.alloc, text)?;
        let text = Text::from_slice(self.alloc, text)?;
        self.texts.reserve(1)?;
        self.numbers.insert(key, number)?;
        self.texts.push_reserved(text);
        Ok(number)
    }
}
