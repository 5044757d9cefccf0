ghost use Rattle.std.specs.Prelude.{◌≡◌, ◌≤◌, ◌<◌, ℕ, IfOk, IfErr, IfSome, IfNone, Some, None, ◌∷◌, ◌++◌, [], length, take, MatchOption, IsTrue, ◌↔◌, is_some, OnOk};
ghost use Rattle.tree_model.specs.Tree.{LiteralOf};
ghost use Rattle.grammar_model.specs.Terminal.{Text};
ghost use Rattle.grammar_model.specs.Machine.{step, wish, may_start};
ghost use Rattle.st_faults.specs.Sorts.{terminal};
ghost use Rattle.st_faults.specs.Moves.{part_of, put, put_all, Does};
ghost use Rattle.st_faults.specs.Stacks.{stack_of, Finds, Steps};

use crate::expressions::expression_move;
use crate::literals::literal_move;
use crate::messages::message_move;
use crate::methods::{closing_move, method_move};
use crate::moves::{Move, Parts};
use crate::part::Part;
use crate::sequences::sequence_move;
use crate::sort::Sort;
use crate::wishes::wish_of;
use grammar_model::Wanted;
use rb_base::Memory;

/// What a part does with a token.
fn move_of(part: Part, sort: Sort) -> Move
    ensures { Does result sort (λ ss k. step (part_of part ∷ ss) k) }
{
    match part {
        Part::Expression(part) => expression_move(part, sort),
        Part::Message(part) => message_move(part, sort),
        Part::Literal(part) => literal_move(part, sort),
        Part::Sequence(part) => sequence_move(part, sort),
        Part::Method(part) => method_move(part, sort),
        Part::Awaits(part) => closing_move(part, sort),
    }
}

/// What becomes of a stack where a token is read.
#[derive(Clone, Copy)]
struct Found {
    /// How many parts stay.
    below: usize,
    /// The parts that come on top of them.
    parts: Parts,
}

/// What becomes of a stack at a token, or `None` where the token cannot stand.
fn find(stack: &[Part], sort: Sort) -> Option<Found>
    ensures { Finds stack.now sort result }
{
    let mut count = stack.len();
    while count > 0 {
        match move_of(stack[count - 1], sort) {
            Move::Refuses => return None,
            Move::Passes => count -= 1,
            Move::Reads(parts) => {
                return Some(Found {
                    below: count - 1,
                    parts,
                });
            }
        }
    }
    None
}

/// Puts a part on top.
fn put(stack: &mut Vec<Part>, part: Option<Part>) -> Result<(), Memory>
    ensures { IfOk result (λ _. stack_of stack.new.items ≡ put part (stack_of stack.old.items)) }
{
    if let Some(part) = part {
        stack.push(part)?;
    }
    Ok(())
}

/// Puts parts on top, the first of them last.
fn put_all(stack: &mut Vec<Part>, parts: Parts) -> Result<(), Memory>
    ensures { IfOk result (λ _. stack_of stack.new.items ≡ put_all parts (stack_of stack.old.items)) }
{
    put(stack, parts.fourth)?;
    put(stack, parts.third)?;
    put(stack, parts.second)?;
    put(stack, parts.first)
}

/// Reads a token: whether it can stand here. Where it cannot, the stack stays as it is.
pub fn read(stack: &mut Vec<Part>, sort: Sort) -> Result<bool, Memory>
    ensures { IfOk result (λ read. Steps stack.old.items sort read stack.new.items) }
{
    let Some(found) = find(stack, sort) else {
        return Ok(false);
    };
    stack.truncate(found.below);
    put_all(stack, found.parts)?;
    Ok(true)
}

/// What is wanted where the next token cannot stand.
pub fn wanted(stack: &[Part]) -> Wanted
    ensures { result ≡ wish (stack_of stack.now) }
{
    let mut count = stack.len();
    while count > 0 {
        if let Some(wanted) = wish_of(stack[count - 1]) {
            return wanted;
        }
        count -= 1;
    }
    Wanted::End
}

/// Whether a statement could begin here.
pub fn may_start(stack: &[Part]) -> bool
    ensures { result ≡ may_start (stack_of stack.now) }
{
    find(stack, Sort::Caret).is_some()
}
