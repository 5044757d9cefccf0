// Messages of other Smalltalks.
ghost use Rattle.std.specs.Prelude.{◌≡◌, false, ℕ, List, [], ◌∷◌, Some, option_map};
ghost use Rattle.rb_base.specs.Names.{name_at};
ghost use Rattle.tree_model.specs.Tree.{map_trees, trees_of};
ghost use Rattle.file_model.specs.Forms as forms;
ghost use Rattle.chunk_forms.specs.Told.{sent_text};
ghost use Rattle.import_model.specs.Foreign as model;
ghost use Rattle.import_chunks.specs.Told.{ending_text, strings_text, option_cause};

use chunk_forms::{
    Argument, Sent, is_blank_string, may_name, may_name_all, one_argument, same_text, string_first,
    symbol_first,
};
use file_faults::ImageCause;
use rb_base::Names;
use st_tree::Node;

/// The pool dictionaries of a definition, and its category: a base and a tag.
#[derive(Clone, Copy)]
struct Ending<'a> {
    pools: &'a [u8],
    base: &'a [u8],
    tag: &'a [u8],
}

/// The strings of a definition that has a package, or no pool dictionaries.
#[derive(Clone, Copy)]
pub(crate) struct ForeignStrings<'a> {
    pub(crate) name: &'a [u8],
    pub(crate) instance: &'a [u8],
    pub(crate) shared: &'a [u8],
    pub(crate) pools: &'a [u8],
    /// The category, or the package.
    pub(crate) base: &'a [u8],
    /// The tag of the package, or nothing.
    pub(crate) tag: &'a [u8],
}

/// Whether a selector opens a run of methods and tells who wrote them, or what they replace.
pub(crate) fn opens_stamped(selector: &[u8]) -> bool
    ensures { result ≡ model.opens_stamped selector.now }
{
    same_text(selector, b"methodsFor:stamp:")
        || (same_text(selector, b"methodsFor:prior:")
            || same_text(selector, b"methodsFor:stamp:prior:"))
}

/// Whether a selector announces the comment of a class, which is the next chunk.
pub(crate) fn announces_comment(selector: &[u8]) -> bool
    ensures { result ≡ model.announces_comment selector.now }
{
    same_text(selector, b"commentStamp:prior:")
}

/// The ending of a definition in which one string follows the class variables: its category or its package.
fn plain_ending<'a>(selector: &[u8], category: &'a [u8]) -> Option<Ending<'a>>
    ensures { option_map ending_text result ≡ model.ending_of selector.now category.now [] }
{
    if same_text(
        selector,
        b"subclass:instanceVariableNames:classVariableNames:category:",
    ) || same_text(
        selector,
        b"subclass:instanceVariableNames:classVariableNames:package:",
    ) {
        Some(Ending {
            pools: &[],
            base: category,
            tag: &[],
        })
    } else {
        None
    }
}

/// The ending of a definition in which two strings follow the class variables: its package and the tag of that, or its pool
/// dictionaries and its package.
fn double_ending<'a>(selector: &[u8], first: &'a [u8], second: &'a [u8]) -> Option<Ending<'a>>
    ensures { option_map ending_text result ≡ model.ending_of selector.now first.now (forms.String second.now ∷ []) }
{
    if same_text(
        selector,
        b"subclass:instanceVariableNames:classVariableNames:package:tag:",
    ) {
        Some(Ending {
            pools: &[],
            base: first,
            tag: second,
        })
    } else if same_text(
        selector,
        b"subclass:instanceVariableNames:classVariableNames:poolDictionaries:package:",
    ) {
        Some(Ending {
            pools: first,
            base: second,
            tag: &[],
        })
    } else {
        None
    }
}

/// The ending of a definition, by its selector, the string behind its class variables and the arguments behind that.
fn ending_of<'a>(selector: &[u8], first: &'a [u8], others: &'a [Node]) -> Option<Ending<'a>>
    ensures { (f : ℕ → List ℕ) → option_map ending_text result ≡ model.ending_of selector.now first.now (forms.arguments_of (map_trees f (trees_of others.now))) }
{
    if others.is_empty() {
        return plain_ending(selector, first);
    }
    match one_argument(others) {
        Argument::String(second) => double_ending(selector, first, second),
        _ => None,
    }
}

/// The strings of a definition that has a package, or no pool dictionaries.
pub(crate) fn foreign_strings<'a>(
    selector: &[u8],
    arguments: &'a [Node],
) -> Option<ForeignStrings<'a>>
    ensures { (f : ℕ → List ℕ) → option_map strings_text result ≡ model.foreign_strings selector.now (forms.arguments_of (map_trees f (trees_of arguments.now))) }
{
    let name = symbol_first(arguments)?;
    let instance = string_first(name.others)?;
    let shared = string_first(instance.others)?;
    let first = string_first(shared.others)?;
    let ending = ending_of(selector, first.text, first.others)?;
    Some(ForeignStrings {
        name: name.text,
        instance: instance.text,
        shared: shared.text,
        pools: ending.pools,
        base: ending.base,
        tag: ending.tag,
    })
}

/// Why a class is not defined with these strings, if it is not.
pub(crate) fn definition_cause(
    sent: &Sent<'_>,
    strings: &ForeignStrings<'_>,
    names: &Names,
) -> Option<ImageCause>
    ensures { option_cause result (model.cause_in (forms.subclass_form false (name_at names.now sent.now.class) sent.now.meta (Some (strings_text strings.now)))) }
{
    let named = may_name(strings.name)
        && (may_name_all(strings.instance) && may_name_all(strings.shared));
    if sent.meta || !named {
        return Some(ImageCause::UnknownDefinition);
    }
    if is_blank_string(strings.pools) {
        None
    } else {
        Some(ImageCause::PoolsNotEmpty)
    }
}
