// Lines of `addMethod`.
ghost use Rattle.std.specs.Prelude.{◌≡◌, ◌≤◌, ◌<◌, not, length, false, Ok, Err, IfOk, IfErr};
ghost use Rattle.std.specs.List.{prefix_len};
ghost use Rattle.std.specs.Option.{option_map};
ghost use Rattle.token_model.specs.declared.kind.Dialect.TheVariants.{Second};
ghost use Rattle.chunk_format.specs.Blank as blank;
ghost use Rattle.rb_base.specs.Names.{name_at};
ghost use Rattle.tree_model.specs.Tree.{map_method};
ghost use Rattle.tree_model.specs.AllNames.{MethodNames};
ghost use Rattle.grammar_model.specs.Checks.{Fault};
ghost use Rattle.grammar_model.specs.Whole as whole;
ghost use Rattle.grammar_model.specs.Spelling.{SpellsMethod, HasFirstFault};
ghost use Rattle.st_tree.specs.View.{method_of};
ghost use Rattle.event_trees.specs.Naming.{Grows};
ghost use Rattle.commands.specs.Views.{request_in, IsKnownRequest};
ghost use Rattle.script_model.specs.Commands.{BadArgument};
ghost use Rattle.script_model.specs.Additions as script;
ghost use Rattle.script_lang.specs.declared.words.Wrong.TheVariants as wrong;
ghost use Rattle.script_lang.specs.Shown.{addition_shown};

use crate::bytes::is_blank;
use crate::words::{Wrong, intern, side};
use commands::{Action, Command, NewMethod, Request};
use rb_base::{Names, Text};
use spelled_words::is_identifier;
use st_parser::{ParseFault, parse_method};
use st_tree::Method;
use std::alloc::Global;

/// A method that is to be added: its class, its side, its protocol and its text.
#[derive(Clone, Copy)]
pub(crate) struct Addition<'t> {
    class: &'t [u8],
    meta: bool,
    protocol: &'t [u8],
    source: &'t [u8],
}

/// How many bytes a text has before its first blank.
fn word_len(text: &[u8]) -> usize
    ensures value { result ≡ script.word_len text.now }
    ensures in_range { result ≤ length text.now }
{
    text.iter().take_while(|byte| !is_blank(**byte)).count()
}

/// The text without the blanks that it begins with.
fn behind_blanks(text: &[u8]) -> &[u8]
    ensures { result.now ≡ blank.drop_blanks text.now }
{
    text.trim_ascii_start()
}

/// The first word of a text, and what stands behind it.
pub fn split_word(text: &[u8]) -> (&[u8], &[u8])
    ensures word { result.0.now ≡ script.first_word text.now }
    ensures rest { result.1.now ≡ script.behind_word text.now }
{
    let text = behind_blanks(text);
    text.split_at(word_len(text))
}

/// The parts of what stands behind the word of `addMethod`, where each is there and is spelled as it is to be.
fn addition_of(text: &[u8]) -> Option<Addition<'_>>
    ensures { addition_shown result ≡ script.addition_of text.now }
{
    let (class, rest) = split_word(text);
    let (of_side, rest) = split_word(rest);
    let (protocol, rest) = split_word(rest);
    let source = behind_blanks(rest);
    let meta = side(of_side)?;
    if is_identifier(class) && !protocol.is_empty() && !source.is_empty() {
        Some(Addition {
            class,
            meta,
            protocol,
            source,
        })
    } else {
        None
    }
}

/// The tree of a method of a user.
fn user_method(alloc: Global, text: &[u8], names: &mut Names) -> Result<Method, Wrong>
    ensures tree { IfOk result (λ m. SpellsMethod Second false text.now (map_method (name_at names.new) (method_of m))) }
    ensures known { IfOk result (λ m. MethodNames (λ n. n < length names.new) (method_of m)) }
    ensures wrong { IfErr result (λ e. e ≡ wrong.Argument → (fault : Fault) × HasFirstFault Second (whole.Method false) text.now fault) }
    ensures grows { Grows names.old names.new }
{
    match parse_method(alloc, text, false, names) {
        Ok(method) => Ok(method),
        Err(ParseFault::Memory) => Err(Wrong::Memory),
        Err(_) => Err(Wrong::Argument),
    }
}

/// What `addMethod` asks for with the text behind the word: a class, a side, a protocol and the text of a method.
pub(crate) fn add_method(alloc: Global, text: &[u8], names: &mut Names) -> Result<Request, Wrong>
    ensures said { IfOk result (λ r. script.AddsMethod text.now (Ok (request_in names.new r))) }
    ensures known { IfOk result (λ r. IsKnownRequest names.new r) }
    ensures wrong { IfErr result (λ e. e ≡ wrong.Argument → script.AddsMethod text.now (Err BadArgument)) }
    ensures grows { Grows names.old names.new }
{
    let Some(addition) = addition_of(text) else {
        return Err(Wrong::Argument);
    };
    let class = intern(addition.class, names)?;
    let protocol = Text::from_slice(alloc, addition.protocol)?;
    let source = Text::from_slice(alloc, addition.source)?;
    let tree = user_method(alloc, addition.source, names)?;
    Ok(Request::Perform(Action::Single(Command::AddMethod(NewMethod {
        class,
        meta: addition.meta,
        protocol,
        source,
        tree,
    }))))
}
