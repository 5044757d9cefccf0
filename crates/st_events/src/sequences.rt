// Statements and brace arrays.
ghost use Rattle.std.specs.Prelude.{◌≡◌, IfOk};
ghost use Rattle.st_events.specs.Steps.{closed, begun, rest_behind, statement_taken, item_taken, sequence_taken, passed};
ghost use Rattle.st_events.specs.Tokens.{seen};

use crate::part::{Enclosure, ExpressionPart, Part, Rest, SequencePart};
use crate::reader::{Reader, one_more, place};
use crate::token::Token;
use parse_events::{BoxedComments, Event};
use rb_base::Memory;
use st_faults::Sort;
use st_tree::Comments;
use std::alloc::Global;
use std::mem;

impl Reader {
    /// The mark behind so many statements, which ends at a place.
    fn close(
        &mut self,
        alloc: Global,
        enclosure: Enclosure,
        statements: u32,
        to: usize,
    ) -> Result<(), Memory>
        ensures { IfOk result (λ _. self.new ≡ closed enclosure statements to self.old) }
    {
        match enclosure {
            Enclosure::Text => {
                self.head.tail = self.take_held(alloc);
                Ok(())
            }
            Enclosure::Block { from, outer } => {
                let tail = mem::replace(&mut self.held, outer.into_comments());
                let tail = BoxedComments::new(alloc, tail)?;
                let to = place(to)?;
                self.emit(Event::Block {
                    from,
                    to,
                    statements,
                    tail,
                })
            }
        }
    }

    /// A statement begins at a place behind so many others, and is a return or not.
    fn begin_statement(
        &mut self,
        enclosure: Enclosure,
        count: u32,
        from: usize,
        returned: bool,
    ) -> Result<(), Memory>
        ensures { IfOk result (λ _. self.new ≡ begun enclosure count from returned self.old) }
    {
        let from = place(from)?;
        let count = one_more(count)?;
        self.push(Part::Sequence(SequencePart::BehindStatement {
            from,
            enclosure,
            count,
            returned,
        }))
    }

    /// A period or the first token of a statement, or the mark behind the last statement.
    pub fn take_statement(
        &mut self,
        alloc: Global,
        enclosure: Enclosure,
        count: u32,
        rest: Rest,
        token: Token<'_>,
    ) -> Result<(), Memory>
        ensures { IfOk result (λ _. self.new ≡ statement_taken enclosure count rest (seen token.entry) token.entry.from token.entry.to self.old) }
    {
        match token.sort {
            Sort::Period => self.push(Part::Sequence(SequencePart::Statements {
                enclosure,
                count,
                rest,
            })),
            Sort::GroupEnd | Sort::BlockEnd | Sort::BraceEnd | Sort::TextEnd => self.close(
                alloc, enclosure, count, token.to,
            ),
            Sort::Caret => {
                self.begin_statement(enclosure, count, token.from, true)?;
                let from = place(token.from)?;
                self.push_two(
                    Part::Expression(ExpressionPart::Whole),
                    Part::Sequence(SequencePart::BehindReturn { from }),
                )
            }
            Sort::AnyStatement => {
                self.begin_statement(enclosure, count, token.from, false)?;
                self.variable(alloc, token)
            }
            _ => {
                self.begin_statement(enclosure, count, token.from, false)?;
                self.begin_expression(alloc, token)
            }
        }
    }

    /// A period or the first token of an expression of a brace array, or the mark behind the last one.
    fn take_item(
        &mut self,
        alloc: Global,
        from: u32,
        count: u32,
        token: Token<'_>,
    ) -> Result<(), Memory>
        ensures { IfOk result (λ _. self.new ≡ item_taken from count (seen token.entry) token.entry.from token.entry.to self.old) }
    {
        match token.sort {
            Sort::Period => self.push(Part::Sequence(SequencePart::Items {
                from,
                count,
                further: false,
            })),
            Sort::GroupEnd | Sort::BlockEnd | Sort::BraceEnd | Sort::TextEnd => {
                let to = place(token.to)?;
                self.emit(Event::Brace {
                    from,
                    to,
                    items: count,
                })
            }
            _ => {
                let count = one_more(count)?;
                self.push(Part::Sequence(SequencePart::Items {
                    from,
                    count,
                    further: true,
                }))?;
                self.begin_expression(alloc, token)
            }
        }
    }

    /// The first token of a pattern.
    fn begin_pattern(&mut self, alloc: Global, token: Token<'_>) -> Result<(), Memory>
        ensures { IfOk result (λ _. self.new ≡ sequence_taken SequencePart.Pattern (seen token.entry) token.entry.from token.entry.to self.old) }
    {
        let from = place(token.from)?;
        self.push(Part::Sequence(SequencePart::BehindPattern { from }))?;
        self.begin_expression(alloc, token)
    }

    /// A token that a part of a sequence takes.
    pub fn take_in_sequence(
        &mut self,
        alloc: Global,
        part: SequencePart,
        token: Token<'_>,
    ) -> Result<(), Memory>
        ensures { IfOk result (λ _. self.new ≡ sequence_taken part (seen token.entry) token.entry.from token.entry.to self.old) }
    {
        match part {
            SequencePart::Statements {
                enclosure,
                count,
                rest,
            } => self.take_statement(alloc, enclosure, count, rest, token),
            SequencePart::BehindStatement {
                from,
                enclosure,
                count,
                returned,
            } => {
                let rest = if returned { Rest::Periods } else { Rest::Any };
                match token.sort {
                    Sort::Period => {
                        self.state(alloc, from)?;
                        self.take_statement(alloc, enclosure, count, rest, token)
                    }
                    _ => self.take_statement(alloc, enclosure, count, rest, token),
                }
            }
            SequencePart::Items { from, count, .. } => self.take_item(alloc, from, count, token),
            SequencePart::Pattern => self.begin_pattern(alloc, token),
            SequencePart::BehindPattern { from } => self.emit(Event::Statement {
                from,
                comments: Comments::new(alloc),
            }),
            SequencePart::BehindReturn { .. } | SequencePart::GroupEnd => Ok(()),
        }
    }

    /// What is found where a part of a sequence is over.
    pub fn pass_sequence(&mut self, part: SequencePart) -> Result<(), Memory>
        ensures { IfOk result (λ _. self.new ≡ passed (Part.Sequence part) self.old) }
    {
        match part {
            SequencePart::BehindReturn { from } => {
                let to = self.last;
                self.emit(Event::Return { from, to })
            }
            SequencePart::Statements { .. }
            | SequencePart::BehindStatement { .. }
            | SequencePart::Items { .. }
            | SequencePart::GroupEnd
            | SequencePart::Pattern
            | SequencePart::BehindPattern { .. } => Ok(()),
        }
    }
}
