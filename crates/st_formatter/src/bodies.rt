// Bodies of blocks.
ghost use Rattle.std.specs.Prelude.{◌≡◌, ℕ, ◌+◌, List, ◌++◌, [], drop, map, IfOk, OnOk, codes, replicate, if◌then◌else◌};
ghost use Rattle.rb_base.specs.Names.{name_at};
ghost use Rattle.st_tree.specs.View.{statements_of, sequence_of};
ghost use Rattle.text_model.specs.Expressions.{blank_behind, period_before};
ghost use Rattle.st_formatter.specs.Bodies as whole;

use crate::backward::Backward;
use crate::lines::start_line;
use rb_base::{Memory, NameId};
use st_tree::{Sequence, Statement};

/// The level inside a block of this level. No memory holds a line with as many tabs as would go past the largest number.
pub(crate) fn inner_level(level: usize) -> Result<usize, Memory>
    ensures { IfOk result (λ inner. inner ≡ level + 1) }
{
    level.checked_add(1).ok_or(Memory)
}

/// Whether a body has no temporaries, no comments and at most one statement.
pub(crate) fn is_bare(body: &Sequence) -> bool
    ensures { result ≡ whole.is_bare (sequence_of body.now) }
{
    body.temporaries.is_empty() && body.tail.len() == 0 && is_bare_row(body.statements.as_slice())
}

/// Whether there is at most one statement, without comments.
#[tactic(auto, using(crate::proofs::Scans::statement_rules))]
fn is_bare_row(statements: &[Statement]) -> bool
    ensures { result ≡ whole.is_bare_row (statements_of statements.now) }
{
    match statements {
        [] => true,
        [one] => one.comments.len() == 0,
        _ => false,
    }
}

/// Writes the period behind a statement before the text, where another one has this number.
#[tactic(auto, using(crate::proofs::Scans::statement_rules))]
pub(crate) fn write_period(
    statements: &[Statement],
    next: usize,
    out: &mut Backward<'_, '_>,
) -> Result<(), Memory>
    ensures { OnOk result (out.new ≡ period_before (statements_of (drop next statements.now)) ++ out.old) }
{
    if next < statements.len() {
        return out.put_byte(b'.');
    }
    Ok(())
}

/// Writes a line feed and the tabs of a level before the text, unless what is behind them is flat.
pub(crate) fn start_line_unless(
    flat: bool,
    level: usize,
    out: &mut Backward<'_, '_>,
) -> Result<(), Memory>
    ensures { OnOk result (out.new ≡ (if flat then [] else codes "\n" ++ replicate level 9) ++ out.old) }
{
    if flat {
        return Ok(());
    }
    start_line(level, out)
}

/// Writes the blank between the parameters of a flat block and its statement before the text.
pub(crate) fn write_blank(
    flat: bool,
    parameters: &[NameId],
    out: &mut Backward<'_, '_>,
) -> Result<(), Memory>
    ensures { (names : List (List ℕ)) → OnOk result (out.new ≡ whole.blank_where flat (map (name_at names) parameters.now) ++ out.old) }
{
    if flat && !parameters.is_empty() {
        return out.put_byte(b' ');
    }
    Ok(())
}
