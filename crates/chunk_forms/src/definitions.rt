// Definitions of classes.
ghost use Rattle.std.specs.Prelude.{◌≡◌, ◌&&◌, ℕ, List, option_map};
ghost use Rattle.rb_base.specs.Names.{name_at};
ghost use Rattle.tree_model.specs.Tree.{map_trees, trees_of};
ghost use Rattle.file_model.specs.Words.{may_name, may_name_all};
ghost use Rattle.file_model.specs.Forms as forms;
ghost use Rattle.chunk_forms.specs.Told.{strings_text, first_strings_text, strings_first, placed_text, sent_text, form_text, at_stated};

use crate::arguments::{one_argument, string_first, symbol_first};
use crate::form::{ChunkForm, ClassDefinition};
use crate::numerals::place_in;
use crate::sent::{Argument, Sent, text_of};
use crate::words::{is_blank_string, may_name, may_name_all, same_text};
use rb_base::{NameId, Names};
use st_tree::Node;

/// The strings of a definition of a class.
#[derive(Clone, Copy)]
struct DefinitionStrings<'a> {
    name: &'a [u8],
    instance: &'a [u8],
    shared: &'a [u8],
    pools: &'a [u8],
    category: &'a [u8],
}

/// The strings of a definition, and the arguments behind them.
#[derive(Clone, Copy)]
struct FirstStrings<'a> {
    strings: DefinitionStrings<'a>,
    others: &'a [Node],
}

/// The symbol and the four strings with which the arguments begin.
fn strings_first(arguments: &[Node]) -> Option<FirstStrings<'_>>
    ensures { (f : ℕ → List ℕ) → option_map (first_strings_text f) result ≡ strings_first (forms.arguments_of (map_trees f (trees_of arguments.now))) }
{
    let name = symbol_first(arguments)?;
    let instance = string_first(name.others)?;
    let shared = string_first(instance.others)?;
    let pools = string_first(shared.others)?;
    let category = string_first(pools.others)?;
    Some(FirstStrings {
        strings: DefinitionStrings {
            name: name.text,
            instance: instance.text,
            shared: shared.text,
            pools: pools.text,
            category: category.text,
        },
        others: category.others,
    })
}

/// The strings of a definition, where the arguments are a symbol and four strings.
fn definition_strings(arguments: &[Node]) -> Option<DefinitionStrings<'_>>
    ensures { (f : ℕ → List ℕ) → option_map strings_text result ≡ forms.definition_strings (forms.arguments_of (map_trees f (trees_of arguments.now))) }
{
    match strings_first(arguments) {
        None => None,
        Some(first) => {
            if first.others.is_empty() {
                Some(first.strings)
            } else {
                None
            }
        }
    }
}

/// The strings of a definition and the numeral behind them.
#[derive(Clone, Copy)]
struct PlacedStrings<'a> {
    strings: DefinitionStrings<'a>,
    numeral: &'a [u8],
}

/// The strings of a definition and the numeral behind them, where the arguments are such.
fn placed_strings(arguments: &[Node]) -> Option<PlacedStrings<'_>>
    ensures { (f : ℕ → List ℕ) → option_map placed_text result ≡ forms.placed_strings (forms.arguments_of (map_trees f (trees_of arguments.now))) }
{
    match strings_first(arguments) {
        None => None,
        Some(first) => match one_argument(first.others) {
            Argument::Numeral(numeral) => Some(PlacedStrings {
                strings: first.strings,
                numeral,
            }),
            _ => None,
        },
    }
}

/// The superclass that a definition names: in the text of the kernel `nil` stands for none.
fn superclass_named(kernel: bool, class: NameId, names: &Names) -> Option<NameId>
    ensures { option_map (name_at names.now) result ≡ forms.superclass_named kernel (name_at names.now class) }
{
    if kernel && same_text(text_of(names, class), b"nil") {
        None
    } else {
        Some(class)
    }
}

/// Whether the class and its variables may have their names.
fn has_names(strings: &DefinitionStrings<'_>) -> bool
    ensures { result ≡ (may_name strings.now.name.now && (may_name_all strings.now.instance.now && may_name_all strings.now.shared.now)) }
{
    may_name(strings.name) && (may_name_all(strings.instance) && may_name_all(strings.shared))
}

/// A definition of a class under another, for which a place may be stated.
fn definition_form<'a>(
    kernel: bool,
    class: NameId,
    strings: DefinitionStrings<'a>,
    stated: Option<usize>,
    names: &Names,
) -> ChunkForm<'a>
    ensures { form_text names.now result ≡ at_stated stated (forms.definition_form kernel (name_at names.now class) (strings_text strings.entry)) }
{
    if !has_names(&strings) {
        return ChunkForm::IsUnknown;
    }
    if !is_blank_string(strings.pools) {
        return ChunkForm::HasPools;
    }
    let definition = ClassDefinition {
        name: strings.name,
        superclass: superclass_named(kernel, class, names),
        instance: strings.instance,
        shared: strings.shared,
        category: strings.category,
    };
    match stated {
        None => ChunkForm::Defines(definition),
        Some(place) => ChunkForm::DefinesAt { definition, place },
    }
}

/// What `subclass:instanceVariableNames:classVariableNames:poolDictionaries:category:` says.
pub(crate) fn subclass_form<'a>(kernel: bool, sent: &Sent<'a>, names: &Names) -> ChunkForm<'a>
    ensures { form_text names.now result ≡ forms.subclass_form kernel (name_at names.now sent.now.class) sent.now.meta (forms.definition_strings (sent_text names.now sent.now).arguments) }
{
    if sent.meta {
        return ChunkForm::IsUnknown;
    }
    match definition_strings(sent.arguments) {
        None => ChunkForm::IsUnknown,
        Some(strings) => definition_form(kernel, sent.class, strings, None, names),
    }
}

/// A definition of a class under another at the place that a numeral states.
fn placed_form<'a>(
    kernel: bool,
    class: NameId,
    placed: PlacedStrings<'a>,
    names: &Names,
) -> ChunkForm<'a>
    ensures { form_text names.now result ≡ forms.placed_form kernel (name_at names.now class) (placed_text placed.entry) }
{
    match place_in(placed.numeral) {
        None => ChunkForm::IsUnknown,
        Some(place) => definition_form(kernel, class, placed.strings, Some(place), names),
    }
}

/// What `subclass:instanceVariableNames:classVariableNames:poolDictionaries:category:at:` says.
pub(crate) fn placed_subclass_form<'a>(
    kernel: bool,
    sent: &Sent<'a>,
    names: &Names,
) -> ChunkForm<'a>
    ensures { form_text names.now result ≡ forms.placed_subclass_form kernel (name_at names.now sent.now.class) sent.now.meta (forms.placed_strings (sent_text names.now sent.now).arguments) }
{
    if sent.meta {
        return ChunkForm::IsUnknown;
    }
    match placed_strings(sent.arguments) {
        None => ChunkForm::IsUnknown,
        Some(placed) => placed_form(kernel, sent.class, placed, names),
    }
}
