// Lines of `addParameter`.
ghost use Rattle.std.specs.Prelude.{◌≡◌, ◌<◌, length, Ok, Err, IfSome, IfOk, IfErr};
ghost use Rattle.std.specs.Option.{option_map};
ghost use Rattle.token_model.specs.declared.kind.Dialect.TheVariants.{Second};
ghost use Rattle.rb_base.specs.Names.{name_at};
ghost use Rattle.tree_model.specs.Tree.{map_literal, map_names, map_statements, map_sequence};
ghost use Rattle.tree_model.specs.AllNames.{LiteralNames, AllNames, StatementsNames, SequenceNames};
ghost use Rattle.grammar_model.specs.Words as word;
ghost use Rattle.grammar_model.specs.Spelling.{SpellsDoIt};
ghost use Rattle.st_tree.specs.View.{statements_of, sequence_of};
ghost use Rattle.event_spans.specs.Answers.{of_span};
ghost use Rattle.event_trees.specs.Naming.{Grows};
ghost use Rattle.st_spans.specs.Trees.{OfDoIt};
ghost use Rattle.commands.specs.Views.{request_in, IsKnownRequest};
ghost use Rattle.script_model.specs.Commands.{BadArgument};
ghost use Rattle.script_model.specs.Parameters as script;
ghost use Rattle.script_lang.specs.declared.words.Wrong.TheVariants as wrong;
ghost use Rattle.script_lang.specs.Passing.{parameter_shown, IsFaulty, IsNoLiteral};

use crate::additions::split_word;
use crate::bytes::same_text;
use crate::lines::is_blank_line;
use crate::words::{Wrong, intern};
use commands::{Action, Command, NewParameter, Request};
use rb_base::{Memory, Names, Span};
use spelled_words::{is_identifier, is_selector};
use st_parser::{ParseFault, parse_doit};
use st_spans::span_of_doit;
use st_tree::{Literal, LiteralKind, Node, NodeKind, Path, Sequence, Statement};
use std::alloc::Global;

/// A parameter that comes: the selector that takes it, that selector with it, its name, and the text of what messages pass
/// for it.
#[derive(Clone, Copy)]
pub(crate) struct Parameter<'t> {
    selector: &'t [u8],
    to: &'t [u8],
    name: &'t [u8],
    passed: &'t [u8],
}

/// The parts of what stands behind the word of `addParameter`, where the words are spelled as they are to be.
fn parameter_of(text: &[u8]) -> Option<Parameter<'_>>
    ensures { parameter_shown result ≡ script.parameter_of text.now }
{
    let (selector, rest) = split_word(text);
    let (to, rest) = split_word(rest);
    let (name, passed) = split_word(rest);
    if is_selector(selector) && is_selector(to) && is_identifier(name) {
        Some(Parameter {
            selector,
            to,
            name,
            passed,
        })
    } else {
        None
    }
}

/// Whether nothing but blanks stands in front of a node and behind it.
fn is_alone(text: &[u8], span: Span) -> bool
    ensures { result ≡ script.is_alone text.now (of_span span) }
{
    let before = text.get(..span.from).unwrap_or(text);
    let behind = text.get(span.to..).unwrap_or(&[]);
    is_blank_line(before) && is_blank_line(behind)
}

/// Whether the first statement of a do-it stands so.
fn stands_alone(alloc: Global, text: &[u8]) -> Result<bool, Wrong>
    ensures alone { IfOk result (λ alone. OfDoIt text.now (λ s. alone ≡ script.stands_alone text.now s)) }
    ensures wrong { IfErr result (λ e. e ≡ wrong.Argument → IsFaulty text.now) }
{
    let mut path = Path::new(alloc);
    path.push(0)?;
    match span_of_doit(alloc, text, &path) {
        Ok(Some(span)) => Ok(is_alone(text, span)),
        Ok(None) => Ok(false),
        Err(ParseFault::Memory) => Err(Wrong::Memory),
        Err(_) => Err(Wrong::Argument),
    }
}

/// The tree of a do-it.
fn doit(alloc: Global, text: &[u8], names: &mut Names) -> Result<Sequence, Wrong>
    ensures tree { IfOk result (λ body. SpellsDoIt Second text.now (map_sequence (name_at names.new) (sequence_of body))) }
    ensures known { IfOk result (λ body. SequenceNames (λ n. n < length names.new) (sequence_of body)) }
    ensures wrong { IfErr result (λ e. e ≡ wrong.Argument → IsFaulty text.now) }
    ensures grows { Grows names.old names.new }
{
    match parse_doit(alloc, text, names) {
        Ok(body) => Ok(body),
        Err(ParseFault::Memory) => Err(Wrong::Memory),
        Err(_) => Err(Wrong::Argument),
    }
}

/// Whether a name is `nil`, `true` or `false`.
fn is_literal_word(name: &[u8]) -> bool
    ensures { result ≡ word.is_literal_word name.now }
{
    same_text(name, b"nil") || same_text(name, b"true") || same_text(name, b"false")
}

/// The literal that a node is: a literal, or `nil`, `true` or `false`.
fn literal_of(alloc: Global, node: &Node, names: &Names) -> Result<Option<Literal>, Memory>
    requires { AllNames (λ n. n < length names.now) node.now }
    ensures literal { IfOk result (λ literal. option_map (map_literal (name_at names.now)) literal ≡ script.literal_of (map_names (name_at names.now) node.now)) }
    ensures known { IfOk result (λ literal. IfSome literal (λ l. LiteralNames (λ n. n < length names.now) l)) }
{
    match &node.kind {
        NodeKind::Literal { value } => Ok(Some(value.try_copy(alloc)?)),
        NodeKind::Var { name } if is_literal_word(names.text_of(*name)) => Ok(Some(Literal {
            kind: LiteralKind::Word { name: *name },
        })),
        _ => Ok(None),
    }
}

/// The literal that the only statement is.
fn only_literal(
    alloc: Global,
    statements: &[Statement],
    names: &Names,
) -> Result<Option<Literal>, Memory>
    requires { StatementsNames (λ n. n < length names.now) (statements_of statements.now) }
    ensures literal { IfOk result (λ literal. option_map (map_literal (name_at names.now)) literal ≡ script.only_literal (map_statements (name_at names.now) (statements_of statements.now))) }
    ensures known { IfOk result (λ literal. IfSome literal (λ l. LiteralNames (λ n. n < length names.now) l)) }
{
    let [only] = statements else {
        return Ok(None);
    };
    literal_of(alloc, &only.node, names)
}

/// The literal that a text is.
fn literal_in(alloc: Global, text: &[u8], names: &mut Names) -> Result<Literal, Wrong>
    ensures said { IfOk result (λ l. OfDoIt text.now (λ s. script.literal_in text.now s ≡ Some (map_literal (name_at names.new) l))) }
    ensures known { IfOk result (λ l. LiteralNames (λ n. n < length names.new) l) }
    ensures wrong { IfErr result (λ e. e ≡ wrong.Argument → IsNoLiteral text.now) }
    ensures grows { Grows names.old names.new }
{
    if !stands_alone(alloc, text)? {
        return Err(Wrong::Argument);
    }
    let body = doit(alloc, text, names)?;
    match only_literal(alloc, body.statements.as_slice(), names)? {
        Some(literal) => Ok(literal),
        None => Err(Wrong::Argument),
    }
}

/// What `addParameter` asks for with the text behind the word: two selectors, a variable and a literal.
pub(crate) fn add_parameter(alloc: Global, text: &[u8], names: &mut Names) -> Result<Request, Wrong>
    ensures said { IfOk result (λ r. script.AddsParameter text.now (Ok (request_in names.new r))) }
    ensures known { IfOk result (λ r. IsKnownRequest names.new r) }
    ensures wrong { IfErr result (λ e. e ≡ wrong.Argument → script.AddsParameter text.now (Err BadArgument)) }
    ensures grows { Grows names.old names.new }
{
    let Some(parameter) = parameter_of(text) else {
        return Err(Wrong::Argument);
    };
    let selector = intern(parameter.selector, names)?;
    let to = intern(parameter.to, names)?;
    let name = intern(parameter.name, names)?;
    let passed = literal_in(alloc, parameter.passed, names)?;
    Ok(Request::Perform(Action::Single(Command::AddParameter(NewParameter {
        selector,
        to,
        parameter: name,
        passed,
    }))))
}
