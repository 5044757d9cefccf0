// The words of the laws.
ghost use Rattle.std.specs.Prelude.{◌≡◌, OnOk};
ghost use Rattle.std.specs.List.{AllByRecursion};
ghost use Rattle.event_trees.specs.Naming.{Grows};
ghost use Rattle.derivations.specs.Words.{HasText, HasWords, number_at};

use rb_base::{Memory, NameId, Names};

/// The names and selectors in the sides of the laws.
const WORDS: [&[u8]; 17] = [
    b"a",
    b"b",
    b"c",
    b"s",
    b"t",
    b"m",
    b"n",
    b"self",
    b"nil",
    b"true",
    b"false",
    b"ifTrue:",
    b"ifFalse:",
    b"ifTrue:ifFalse:",
    b"ifFalse:ifTrue:",
    b"and:",
    b"or:",
];

/// Adds texts to the table, if they are new.
fn learn(names: &mut Names, words: &[&[u8]]) -> Result<(), Memory>
    ensures learned { OnOk result (AllByRecursion (λ w. HasText names.new w.now) words.now) }
    ensures grows { Grows names.old names.new }
{
    for word in words {
        names.intern(word)?;
    }
    Ok(())
}

/// Adds the words of the laws to the table, if they are new.
pub(crate) fn learn_words(names: &mut Names) -> Result<(), Memory>
    ensures learned { OnOk result (HasWords names.new) }
    ensures grows { Grows names.old names.new }
{
    learn(names, &WORDS)
}

/// The number of a word that the table has.
pub(crate) fn number_of(names: &Names, word: &[u8]) -> NameId
    requires { HasText names.now word.now }
    ensures { result ≡ number_at names.now word.now }
{
    names.find(word).unwrap()
}
