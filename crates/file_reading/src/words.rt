// The numbers of names, and of the words of strings.
ghost use Rattle.std.specs.Prelude.{◌≡◌, ◌++◌, ◌∷◌, [], ◌==◌, not, length, map, filter, IfOk, OnOk};
ghost use Rattle.std.specs.List.{AllByRecursion};
ghost use Rattle.rb_base.specs.Names.{HasNoTwice, name_at};
ghost use Rattle.event_trees.specs.Naming.{Grows};
ghost use Rattle.file_model.specs.Words.{words_of};
ghost use Rattle.file_reading.specs.Filed.{IsNumberIn};

use chunk_forms::word_len;
use rb_base::{Ids, Memory, NameId, Names};
use std::alloc::Global;

/// No text of a table has two numbers. It does nothing.
pub(crate) fn names_differ(names: &Names)
    ensures { HasNoTwice names.now }
{
    let _count = names.len();
}

/// The number of a text, which is added where it is new.
pub(crate) fn intern(names: &mut Names, text: &[u8]) -> Result<NameId, Memory>
    ensures text { IfOk result (λ n. name_at names.new n ≡ text.now) }
    ensures known { IfOk result (λ n. IsNumberIn names.new n) }
    ensures grows { Grows names.old names.new }
{
    names.intern(text)
}

/// A number that has the text of another one, which may have none: its text is then the empty one.
pub(crate) fn known(names: &mut Names, name: NameId) -> Result<NameId, Memory>
    ensures text { IfOk result (λ n. name_at names.new n ≡ name_at names.old name) }
    ensures known { IfOk result (λ n. IsNumberIn names.new n) }
    ensures grows { Grows names.old names.new }
{
    if name.0 < names.len() {
        return Ok(name);
    }
    intern(names, &[])
}

/// Puts the number of a word at the end; the empty word is none.
fn push_word(ids: &mut Ids, names: &mut Names, word: &[u8]) -> Result<(), Memory>
    requires { AllByRecursion (IsNumberIn names.old) ids.old }
    ensures words { OnOk result (map (name_at names.new) ids.new ≡ map (name_at names.old) ids.old ++ filter (λ w. not (length w == 0)) (word.now ∷ [])) }
    ensures known { OnOk result (AllByRecursion (IsNumberIn names.new) ids.new) }
    ensures grows { Grows names.old names.new }
{
    if word.is_empty() {
        return Ok(());
    }
    let name = intern(names, word)?;
    ids.push(name)
}

/// The numbers of the words of a string, between which blanks stand.
pub(crate) fn intern_words(alloc: Global, text: &[u8], names: &mut Names) -> Result<Ids, Memory>
    ensures words { IfOk result (λ ids. map (name_at names.new) ids ≡ words_of text.now) }
    ensures known { IfOk result (λ ids. AllByRecursion (IsNumberIn names.new) ids) }
    ensures grows { Grows names.old names.new }
{
    let mut ids = Ids::new(alloc);
    let mut rest = text;
    'words: loop {
        let (word, behind) = rest.split_at(word_len(rest));
        push_word(&mut ids, names, word)?;
        match behind.split_first() {
            None => return Ok(ids),
            Some((_, others)) => rest = others,
        }
    }
}
