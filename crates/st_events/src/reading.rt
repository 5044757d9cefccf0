// How a reader reads one token.
ghost use Rattle.std.specs.Prelude.{◌≡◌, ℕ, ◌++◌, true, false, Some, None, IfOk, IfSome, IfNone};
ghost use Rattle.tree_model.specs.Tree.{Notes, LiteralOf};
ghost use Rattle.grammar_model.specs.Terminal.{Text};
ghost use Rattle.grammar_model.specs.Input.{lex};
ghost use Rattle.grammar_model.specs.Machine as machine;
ghost use Rattle.st_faults.specs.Sorts.{terminal};
ghost use Rattle.st_events.specs.Answers.{answer};
ghost use Rattle.st_events.specs.Stacks.{above, machine_of};
ghost use Rattle.st_events.specs.Steps.{advanced, taken, settled, passed, step};
ghost use Rattle.st_events.specs.Tokens.{seen};

use crate::answers::{Answer, answer_of};
use crate::part::{Part, SequencePart};
use crate::reader::{Reader, place};
use crate::token::Token;
use rb_base::Memory;
use st_faults::Sort;
use st_tree::Comments;
use std::alloc::Global;
use std::mem;

/// Appends comments.
#[inline]
fn append(alloc: Global, held: &mut Comments, notes: Comments) -> Result<(), Memory>
    ensures { IfOk result (λ _. held.new ≡ held.old ++ notes) }
{
    if notes.as_slice().is_empty() {
        return Ok(());
    }
    let mut items = mem::replace(held, Comments::new(alloc)).into_vec();
    let mut more = notes.into_vec();
    items.append(&mut more)?;
    *held = Comments::from_vec(items);
    Ok(())
}

impl Reader {
    /// A token that a part takes, behind which the reader stands.
    #[inline]
    fn take(&mut self, alloc: Global, part: Part, token: Token<'_>) -> Result<(), Memory>
        ensures { IfOk result (λ _. self.new ≡ taken part (seen token.entry) token.entry.from token.entry.to self.old) }
    {
        match part {
            Part::Expression(part) => self.take_in_expression(alloc, part, token),
            Part::Message(part) => self.take_in_messages(alloc, part, token),
            Part::Literal(part) => self.take_in_literal(alloc, part, token),
            Part::Block(part) => self.take_in_block(alloc, part, token),
            Part::Sequence(part) => self.take_in_sequence(alloc, part, token),
            Part::Head(part) => self.take_in_head(alloc, part, token),
        }
    }

    /// What is found before the comments that stand before a token that a part takes.
    #[inline]
    fn settle(&mut self, alloc: Global, part: &Part, sort: Sort) -> Result<(), Memory>
        ensures { IfOk result (λ _. (s : Text) (l : LiteralOf Text) → self.new ≡ settled part.now (terminal sort s l) self.old) }
    {
        match part {
            Part::Sequence(SequencePart::BehindStatement { from, .. }) => match sort {
                Sort::GroupEnd | Sort::BlockEnd | Sort::BraceEnd | Sort::TextEnd => self.state(
                    alloc, *from,
                ),
                _ => Ok(()),
            },
            _ => Ok(()),
        }
    }

    /// What is found where a part is over.
    #[inline]
    fn pass(&mut self, part: Part) -> Result<(), Memory>
        ensures { IfOk result (λ _. self.new ≡ passed part self.old) }
    {
        match part {
            Part::Expression(part) => self.pass_expression(part),
            Part::Message(part) => self.pass_messages(part),
            Part::Literal(part) => self.pass_literal(part),
            Part::Sequence(part) => self.pass_sequence(part),
            Part::Block(_) | Part::Head(_) => Ok(()),
        }
    }

    /// The part that takes a token of the sort from a place on, off the stack. `None` if the token cannot stand.
    #[tactic(auto, using(crate::proofs::Agreeing::passes, crate::proofs::Agreeing::refuses, crate::proofs::Running::passed_stack, crate::proofs::Running::settled_stack))]
    #[inline]
    fn next_part(&mut self, alloc: Global, sort: Sort, from: usize) -> Result<Option<Part>, Memory>
        ensures taken { IfOk result (λ part. IfSome part (λ part. (c : Notes) (e : ℕ) (s : Text) (l : LiteralOf Text) →
            step self.old.stack self.old (lex c from e (terminal sort s l)) ≡ taken part (terminal sort s l) from e (advanced c e self.new))) }
        ensures leads { IfOk result (λ part. IfSome part (λ part. (s : Text) (l : LiteralOf Text) → answer part (terminal sort s l) ≡ Answer.Takes)) }
        ensures same { IfOk result (λ part. IfSome part (λ part. (s : Text) (l : LiteralOf Text) →
            machine.step (machine_of self.old.stack) (terminal sort s l) ≡ machine.step (above part (machine_of self.new.stack)) (terminal sort s l))) }
        ensures refused { IfOk result (λ part. IfNone part ((s : Text) (l : LiteralOf Text) → machine.step (machine_of self.old.stack) (terminal sort s l) ≡ None)) }
    {
        'parts: loop {
            let Some(part) = self.stack.pop() else {
                return Ok(None);
            };
            match answer_of(&part, sort) {
                Answer::Refuses => return Ok(None),
                Answer::Passes => self.pass(part)?,
                Answer::Takes => {
                    self.settle(alloc, &part, sort)?;
                    return Ok(Some(part));
                }
            }
        }
    }

    /// Goes behind a token that ends at a place and has these comments before it.
    #[inline]
    fn advance(&mut self, alloc: Global, notes: Comments, to: usize) -> Result<(), Memory>
        ensures { IfOk result (λ _. self.new ≡ advanced notes to self.old) }
    {
        append(alloc, &mut self.held, notes)?;
        self.last = place(to)?;
        Ok(())
    }

    /// Reads a token with these comments before it, and tells whether it can stand. Behind one that cannot, nothing is known
    /// any more.
    #[inline(always)]
    pub fn read(&mut self, alloc: Global, token: Token<'_>, notes: Comments) -> Result<bool, Memory>
        ensures read { IfOk result (λ read. read ≡ true → self.new ≡ step self.old.stack self.old (lex notes token.entry.from token.entry.to (seen token.entry))) }
        ensures leads { IfOk result (λ read. read ≡ true → (s : Text) (l : LiteralOf Text) →
            machine.step (machine_of self.old.stack) (terminal token.entry.sort s l) ≡ Some (machine_of self.new.stack)) }
        ensures refused { IfOk result (λ read. read ≡ false → (s : Text) (l : LiteralOf Text) → machine.step (machine_of self.old.stack) (terminal token.entry.sort s l) ≡ None) }
    {
        let Some(part) = self.next_part(alloc, token.sort, token.from)? else {
            return Ok(false);
        };
        self.advance(alloc, notes, token.to)?;
        self.take(alloc, part, token)?;
        Ok(true)
    }
}
