ghost use Rattle.std.specs.Prelude.{◌≡◌, List, [], ◌∷◌, is_some, IfOk, IfErr};
ghost use Rattle.token_model.specs.declared.kind.Dialect.TheVariants.{Second};
ghost use Rattle.tree_model.specs.Tree.{Notes, LiteralOf};
ghost use Rattle.grammar_model.specs.Terminal.{Text};
ghost use Rattle.grammar_model.specs.Input as input;
ghost use Rattle.grammar_model.specs.Input.{lex};
ghost use Rattle.grammar_model.specs.PatternTokens.{IsLexedAs};
ghost use Rattle.grammar_model.specs.Checks.{first_deep};
ghost use Rattle.st_faults.specs.Sorts.{terminal};
ghost use Rattle.st_faults.specs.Forms.{form_of};
ghost use Rattle.st_faults.specs.Lexing.{HasLexFault};
ghost use Rattle.st_faults.specs.Depths.{deep_behind};
ghost use Rattle.st_faults.specs.Faults.{IsClean, IsUnclean};

use crate::fault::ParseFault;
use crate::form::TextForm;
use crate::lexeme::{Lexeme, next_lexeme};
use crate::sort::Sort;
use token_model::LexFault;

/// How many brackets may stand open.
const MOST_OPEN: usize = 400;

/// How deep the brackets are.
#[derive(Clone, Copy)]
pub enum Depth {
    /// So many stand open.
    Open(usize),
    /// The bracket at this place was the first too deep one.
    TooDeep(usize),
}

/// Whether a bracket was too deep.
pub fn is_too_deep(depth: Depth) -> bool
    ensures { result ≡ is_some (deep_behind depth []) }
{
    match depth {
        Depth::Open(_) => false,
        Depth::TooDeep(_) => true,
    }
}

/// How deep the brackets are behind one more token.
pub fn depth_behind(depth: Depth, lexeme: Lexeme) -> Depth
    ensures { (notes : Notes) (s : Text) (l : LiteralOf Text) (ts : List input.Lexeme) →
        deep_behind depth (lex notes lexeme.from lexeme.to (terminal lexeme.sort s l) ∷ ts) ≡ deep_behind result ts }
{
    let Depth::Open(open) = depth else {
        return depth;
    };
    match lexeme.sort {
        Sort::GroupStart
        | Sort::BlockStart
        | Sort::BraceStart
        | Sort::ArrayStart
        | Sort::BytesStart => {
            if open < MOST_OPEN {
                Depth::Open(open + 1)
            } else {
                Depth::TooDeep(lexeme.from)
            }
        }
        Sort::GroupEnd | Sort::BlockEnd | Sort::BraceEnd | Sort::TextEnd => Depth::Open(
            open.saturating_sub(1),
        ),
        _ => depth,
    }
}

/// How deep the brackets of a text are at its end, or its first lexical fault.
fn whole_depth(form: TextForm, text: &[u8]) -> Result<Depth, LexFault>
    ensures depth { IfOk result (λ depth. (tokens : List input.Lexeme) × IsLexedAs (form_of form) Second text.now tokens × (first_deep 0 tokens ≡ deep_behind depth [])) }
    ensures fault { IfErr result (HasLexFault (form_of form) text.now 0) }
{
    let mut place = 0;
    let mut depth = Depth::Open(0);
    'tokens: loop {
        let lexeme = next_lexeme(form, text, place)?;
        depth = depth_behind(depth, lexeme);
        match lexeme.sort {
            Sort::TextEnd => return Ok(depth),
            _ => place = lexeme.to,
        }
    }
}

/// Whether a text of a form has neither a lexical fault nor too many open brackets. It is refused with the first lexical fault, or
/// else with `TooDeep` at the first bracket that opens where 400 stand open. It takes no memory, and its time is linear
/// in the text.
pub fn scan(form: TextForm, text: &[u8]) -> Result<(), ParseFault>
    ensures clean { IfOk result (λ _. IsClean (form_of form) text.now) }
    ensures fault { IfErr result (IsUnclean (form_of form) text.now) }
{
    match whole_depth(form, text) {
        Err(fault) => Err(ParseFault::Lexical(fault)),
        Ok(Depth::TooDeep(at)) => Err(ParseFault::TooDeep { at }),
        Ok(Depth::Open(_)) => Ok(()),
    }
}
