ghost use Rattle.std.specs.Prelude.{◌≡◌, ◌≤◌, List, [], ◌∷◌, length, Some, IfOk, IfErr};
ghost use Rattle.tree_model.specs.Tree.{Notes, LiteralOf};
ghost use Rattle.grammar_model.specs.Terminal.{Text, Binary, Less};
ghost use Rattle.grammar_model.specs.Input as input;
ghost use Rattle.grammar_model.specs.Input.{lex, first_kind};
ghost use Rattle.grammar_model.specs.Whole.{DoIt, Method, PatternText};
ghost use Rattle.grammar_model.specs.Machine.{start, wish, may_start, is_primitive, fault_at};
ghost use Rattle.st_faults.specs.Sorts.{terminal};
ghost use Rattle.st_faults.specs.Lexing.{IsLexedFrom, IsBehind};
ghost use Rattle.st_faults.specs.Stacks.{stack_of};
ghost use Rattle.st_faults.specs.Forms.{form_of};
ghost use Rattle.st_faults.specs.Faults.{fault_of, IsClean, IsRead, IsRefused};

use crate::brackets::scan;
use crate::fault::ParseFault;
use crate::form::{TextForm, is_user, start};
use crate::lexeme::{Lexeme, next_lexeme};
use crate::part::Part;
use crate::sort::Sort;
use crate::stack::{may_start, read, wanted};
use std::alloc::Global;

/// Whether the first token from a place of a clean text on is the keyword of primitives.
fn has_primitive_keyword(form: TextForm, text: &[u8], at: usize) -> bool
    requires { at ≤ length text.now }
    ensures { (s : Text) (ts : List input.Lexeme) → IsLexedFrom (form_of form) text.now at [] ts → is_primitive (Binary Less s) (first_kind ts) ≡ result }
{
    match next_lexeme(form, text, at) {
        Ok(lexeme) => match lexeme.sort {
            Sort::PrimitiveKeyword => true,
            _ => false,
        },
        Err(_) => false,
    }
}

/// Whether a token of a clean text begins a primitive.
fn begins_primitive(form: TextForm, text: &[u8], lexeme: Lexeme) -> bool
    requires { lexeme.to ≤ length text.now }
    ensures { (s : Text) (l : LiteralOf Text) (ts : List input.Lexeme) → IsBehind (form_of form) text.now lexeme ts →
        is_primitive (terminal lexeme.sort s l) (first_kind ts) ≡ result }
{
    match lexeme.sort {
        Sort::Less => has_primitive_keyword(form, text, lexeme.to),
        _ => false,
    }
}

/// The fault at a token of a clean text that cannot stand there.
fn refusal(text: &[u8], form: TextForm, stack: &[Part], lexeme: Lexeme) -> ParseFault
    requires { lexeme.to ≤ length text.now }
    ensures { (notes : Notes) (s : Text) (l : LiteralOf Text) (ts : List input.Lexeme) → IsBehind (form_of form) text.now lexeme ts →
        fault_of result ≡ Some (fault_at (form_of form) (lex notes lexeme.from lexeme.to (terminal lexeme.sort s l) ∷ ts) (wish (stack_of stack.now)) (may_start (stack_of stack.now))) }
{
    let at = lexeme.from;
    if is_user(form) && may_start(stack) && begins_primitive(form, text, lexeme) {
        ParseFault::PrimitiveInUser { at }
    } else {
        ParseFault::Expected {
            what: wanted(stack),
            at,
        }
    }
}

/// Reads the tokens of a clean text up to its end, or up to the first that cannot stand.
fn read_all(text: &[u8], form: TextForm, stack: &mut Vec<Part>) -> Result<(), ParseFault>
    requires clean { IsClean (form_of form) text.now }
    requires start { stack_of stack.old.items ≡ start (form_of form) }
    ensures read { IfOk result (λ _. IsRead (form_of form) text.now) }
    ensures fault { IfErr result (IsRefused (form_of form) text.now) }
{
    let mut place = 0;
    'tokens: loop {
        let lexeme = next_lexeme(form, text, place)?;
        if !read(stack, lexeme.sort)? {
            return Err(refusal(text, form, stack, lexeme));
        }
        match lexeme.sort {
            Sort::TextEnd => return Ok(()),
            _ => place = lexeme.to,
        }
    }
}

/// Whether a text is of the form by the grammar, or its first fault: of its tokens and brackets, and then by the grammar.
fn check(alloc: Global, text: &[u8], form: TextForm) -> Result<(), ParseFault>
    ensures read { IfOk result (λ _. IsRead (form_of form) text.now) }
    ensures fault { IfErr result (IsRefused (form_of form) text.now) }
{
    scan(form, text)?;
    let mut stack = start(alloc, form)?;
    read_all(text, form, &mut stack)
}

/// Whether a text is a do-it by the grammar: it has no lexical fault, at most 400 open brackets, and no token that can
/// continue no text. Else it is refused with the first of these faults: `Lexical`, `TooDeep`, `Expected` or
/// `PrimitiveInUser`. Names and heights are not judged. Its time is linear in the text, and the memory that it takes from
/// `alloc` in the brackets that stand open.
pub fn check_doit(alloc: Global, text: &[u8]) -> Result<(), ParseFault>
    ensures read { IfOk result (λ _. IsRead DoIt text.now) }
    ensures fault { IfErr result (IsRefused DoIt text.now) }
{
    check(alloc, text, TextForm::DoIt)
}

/// Whether a text is a method by the grammar, of the kernel, where a primitive may be its body, or of a user. It judges
/// and refuses as `check_doit` does.
pub fn check_method(alloc: Global, text: &[u8], kernel: bool) -> Result<(), ParseFault>
    ensures read { IfOk result (λ _. IsRead (Method kernel) text.now) }
    ensures fault { IfErr result (IsRefused (Method kernel) text.now) }
{
    check(alloc, text, TextForm::Method(kernel))
}

/// Whether a text is a pattern by the grammar: one expression, in which metavariables may stand. It judges and refuses as
/// `check_doit` does.
pub fn check_pattern(alloc: Global, text: &[u8]) -> Result<(), ParseFault>
    ensures read { IfOk result (λ _. IsRead PatternText text.now) }
    ensures fault { IfErr result (IsRefused PatternText text.now) }
{
    check(alloc, text, TextForm::Pattern)
}
