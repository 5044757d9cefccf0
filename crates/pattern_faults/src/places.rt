// Where the metavariables of a pattern's text begin.
ghost use Rattle.std.specs.Prelude.{◌≡◌, ◌++◌, ℕ, Bool, List, false, option_map, IfOk, IfSome, IfNone};
ghost use Rattle.token_model.specs.declared.kind.Dialect.TheVariants.{Second};
ghost use Rattle.tree_model.specs.Tree.{LiteralOf};
ghost use Rattle.grammar_model.specs.Terminal.{Text};
ghost use Rattle.grammar_model.specs.Input.{Lexeme};
ghost use Rattle.grammar_model.specs.PatternTokens.{IsPatternLexed};
ghost use Rattle.st_faults.specs.Sorts.{terminal};
ghost use Rattle.pattern_trees.specs.Faults.{is_meta_token, meta_places};
ghost use Rattle.pattern_faults.specs.Metas.{places_from};

use rb_base::Memory;
use st_faults::{Sort, TextForm, begins_digit, sort_in, token_from};
use std::alloc::Global;
use token_model::TokenKind;

/// Whether a token of a sort is a metavariable.
fn is_meta(sort: Sort) -> bool
    ensures { (s : Text) (l : LiteralOf Text) → is_meta_token (terminal sort s l) ≡ result }
{
    matches!(
        sort,
        Sort::AnyName
            | Sort::AnyLiteral
            | Sort::AnyExpression
            | Sort::AnyStatement
            | Sort::AnyKey
            | Sort::AnyMessage
    )
}

/// Goes past a token, which is none of a sort where it is a comment. The flags say that the token before began any message,
/// and that this one does: the token behind it then belongs to that message.
fn pass(
    sort: Option<Sort>,
    from: usize,
    ends: bool,
    places: &mut Vec<usize>,
) -> Result<bool, Memory>
    ensures { IfOk result (λ later. (s : Text) (l : LiteralOf Text) (rest : Bool → List ℕ) → places.new.items ++ rest later ≡ places.old.items ++ places_from ends (option_map (λ sort. terminal sort s l) sort) from rest) }
{
    let Some(sort) = sort else {
        return Ok(ends);
    };
    if is_meta(sort) && !ends {
        places.push(from)?;
    }
    Ok(matches!(sort, Sort::AnyMessage))
}

/// Where the metavariables of a pattern's text begin, in order, each in bytes from the text's start; any message is one. None
/// where the text has a lexical fault.
pub(crate) fn meta_places(alloc: Global, text: &[u8]) -> Result<Option<Vec<usize>>, Memory>
    ensures places { IfOk result (λ found. IfSome found (λ places. (tokens : List Lexeme) → IsPatternLexed Second text.now tokens → places.items ≡ meta_places false tokens)) }
    ensures fault { IfOk result (λ found. IfNone found ((tokens : List Lexeme) → ¬ IsPatternLexed Second text.now tokens)) }
{
    let form = TextForm::Pattern;
    let mut places = Vec::new(alloc);
    let mut place = 0;
    let mut ends = false;
    'tokens: loop {
        let Ok(token) = token_from(form, text, place) else {
            return Ok(None);
        };
        if matches!(token.kind, TokenKind::End) {
            return Ok(Some(places));
        }
        let before_numeral = begins_digit(text, token.to);
        let sort = sort_in(form, token.kind, token.text, before_numeral);
        ends = pass(sort, token.from, ends, &mut places)?;
        place = token.to;
    }
}
