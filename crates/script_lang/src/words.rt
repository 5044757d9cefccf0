// Words behind that of a command: names, selectors, sides, methods and numbers.
ghost use Rattle.std.specs.Prelude.{◌≡◌, ◌<◌, length, false, Some, None, IfOk, IfErr};
ghost use Rattle.std.specs.List.{list_all};
ghost use Rattle.rb_base.specs.Names.{name_at};
ghost use Rattle.text_model.specs.Literals as literal;
ghost use Rattle.command_model.specs.Accessors as accessor;
ghost use Rattle.event_trees.specs.Naming.{Grows};
ghost use Rattle.script_model.specs.Arguments as script;
ghost use Rattle.script_lang.specs.declared.words.Wrong.TheVariants as wrong;
ghost use Rattle.script_lang.specs.Shown.{AreNames, IsMethodNamed, NamesNoMethod, IsPartNamed, NamesNoPart, texts};

use crate::bytes::same_text;
use command_words::number_of;
use commands::{MethodName, MethodPart};
use rb_base::{Ids, Memory, NameId, Names, Text};
use spelled_words::{is_identifier, is_selector};
use std::alloc::{AllocError, Global};

/// The highest number of a script.
const MOST_NUMBER: u32 = 999_999_999;

/// Why words ask for nothing.
#[derive(Clone, Copy)]
pub(crate) enum Wrong {
    /// There are too few or too many words, one is not spelled as it is to be at its place, or a text is no method of a user
    /// or no literal.
    Argument,
    /// Want of memory.
    Memory,
}

impl From<Memory> for Wrong {
    ghost from_gives = { λ _ e. e ≡ wrong.Memory };

    fn from(_error: Memory) -> Wrong {
        Wrong::Memory
    }
}

impl From<AllocError> for Wrong {
    ghost from_gives = { λ _ e. e ≡ wrong.Memory };

    fn from(_error: AllocError) -> Wrong {
        Wrong::Memory
    }
}

/// The number of a name, which is added where it is new.
pub(crate) fn intern(word: &[u8], names: &mut Names) -> Result<NameId, Memory>
    ensures text { IfOk result (λ n. name_at names.new n ≡ word.now) }
    ensures known { IfOk result (λ n. n < length names.new) }
    ensures grows { Grows names.old names.new }
{
    names.intern(word)
}

/// The name that the word is, as an identifier.
pub(crate) fn identifier(word: &[u8], names: &mut Names) -> Result<NameId, Wrong>
    ensures said { IfOk result (λ n. script.argument script.a_class word.now ≡ Some (script.name (name_at names.new n))) }
    ensures known { IfOk result (λ n. n < length names.new) }
    ensures wrong { IfErr result (λ e. e ≡ wrong.Argument → script.argument script.a_class word.now ≡ None) }
    ensures grows { Grows names.old names.new }
{
    if !is_identifier(word) {
        return Err(Wrong::Argument);
    }
    let name = intern(word, names)?;
    Ok(name)
}

/// The names that the words are, each as an identifier.
pub(crate) fn identifiers(alloc: Global, words: &[&[u8]], names: &mut Names) -> Result<Ids, Wrong>
    ensures said { IfOk result (λ ids. AreNames names.new ids (texts words.now)) }
    ensures wrong { IfErr result (λ e. e ≡ wrong.Argument → list_all literal.is_identifier (texts words.now) ≡ false) }
    ensures grows { Grows names.old names.new }
{
    let mut ids = Ids::new(alloc);
    for word in words {
        let name = identifier(word, names)?;
        ids.push(name)?;
    }
    Ok(ids)
}

/// The name that the word is, as a selector.
pub(crate) fn selector(word: &[u8], names: &mut Names) -> Result<NameId, Wrong>
    ensures said { IfOk result (λ n. script.argument script.a_selector word.now ≡ Some (script.name (name_at names.new n))) }
    ensures known { IfOk result (λ n. n < length names.new) }
    ensures wrong { IfErr result (λ e. e ≡ wrong.Argument → script.argument script.a_selector word.now ≡ None) }
    ensures grows { Grows names.old names.new }
{
    if !is_selector(word) {
        return Err(Wrong::Argument);
    }
    let name = intern(word, names)?;
    Ok(name)
}

/// The side that the word tells: whether it is the class side.
pub(crate) fn side(word: &[u8]) -> Option<bool>
    ensures { result ≡ script.side_of word.now }
{
    if same_text(word, b"instance") {
        Some(false)
    } else if same_text(word, b"class") {
        Some(true)
    } else {
        None
    }
}

/// The number that the word writes.
pub(crate) fn number(word: &[u8]) -> Option<usize>
    ensures { result ≡ script.number_of word.now }
{
    if same_text(word, b"0") {
        return Some(0);
    }
    match number_of(word, MOST_NUMBER) {
        Some(number) => Some(number as usize),
        None => None,
    }
}

/// The method that three words name: its class, its side and its selector.
pub(crate) fn method_name(
    class: &[u8],
    of_side: &[u8],
    of_selector: &[u8],
    names: &mut Names,
) -> Result<MethodName, Wrong>
    ensures said { IfOk result (λ m. IsMethodNamed names.new m class.now of_side.now of_selector.now) }
    ensures known { IfOk result (λ m. (m.class < length names.new) × (m.selector < length names.new)) }
    ensures wrong { IfErr result (λ e. e ≡ wrong.Argument → NamesNoMethod class.now of_side.now of_selector.now) }
    ensures grows { Grows names.old names.new }
{
    let Some(meta) = side(of_side) else {
        return Err(Wrong::Argument);
    };
    let class = identifier(class, names)?;
    let selector = selector(of_selector, names)?;
    Ok(MethodName {
        class,
        meta,
        selector,
    })
}

/// The part of a method that five words name: its method, where it begins and where it ends.
pub(crate) fn method_part(
    class: &[u8],
    of_side: &[u8],
    of_selector: &[u8],
    of_from: &[u8],
    of_to: &[u8],
    names: &mut Names,
) -> Result<MethodPart, Wrong>
    ensures said { IfOk result (λ p. IsPartNamed names.new p class.now of_side.now of_selector.now of_from.now of_to.now) }
    ensures known { IfOk result (λ p. (p.method.class < length names.new) × (p.method.selector < length names.new)) }
    ensures wrong { IfErr result (λ e. e ≡ wrong.Argument → NamesNoPart class.now of_side.now of_selector.now of_from.now of_to.now) }
    ensures grows { Grows names.old names.new }
{
    let (Some(from), Some(to)) = (number(of_from), number(of_to)) else {
        return Err(Wrong::Argument);
    };
    let method = method_name(class, of_side, of_selector, names)?;
    Ok(MethodPart { method, from, to })
}

/// The name of the setter of a variable.
pub(crate) fn setter(alloc: Global, variable: NameId, names: &mut Names) -> Result<NameId, Memory>
    requires { variable < length names.old }
    ensures text { IfOk result (λ n. name_at names.new n ≡ accessor.setter_selector (name_at names.old variable)) }
    ensures known { IfOk result (λ n. n < length names.new) }
    ensures grows { Grows names.old names.new }
{
    let mut selector = Text::from_slice(alloc, names.text_of(variable))?;
    selector.push_slice(b":")?;
    intern(selector.as_slice(), names)
}

/// The name of the parameter of that setter.
pub(crate) fn parameter(variable: NameId, names: &mut Names) -> Result<NameId, Memory>
    requires { variable < length names.old }
    ensures text { IfOk result (λ n. name_at names.new n ≡ accessor.setter_argument (name_at names.old variable)) }
    ensures known { IfOk result (λ n. n < length names.new) }
    ensures grows { Grows names.old names.new }
{
    if same_text(names.text_of(variable), b"anObject") {
        intern(b"aValue", names)
    } else {
        intern(b"anObject", names)
    }
}
