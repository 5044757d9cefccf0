// Operands and assignments.
ghost use Rattle.std.specs.Prelude.{◌≡◌, IfOk};
ghost use Rattle.parse_events.specs.declared.event.Event.TheVariants as event;
ghost use Rattle.st_events.specs.Steps.{emitted, begin_operand, begin_expression, begin_argument, expression_taken, passed};
ghost use Rattle.st_events.specs.Tokens.{seen};

use crate::answers::{is_super, row_of};
use crate::part::{
    BlockPart, Enclosure, ExpressionPart, LiteralPart, MessagePart, Part, Row, SequencePart,
};
use crate::reader::{Reader, place};
use crate::token::Token;
use parse_events::{BoxedComments, Event};
use rb_base::{Memory, Text};
use st_faults::Sort;
use std::alloc::Global;

impl Reader {
    /// The first token of an operand that is no name.
    fn begin_operand(&mut self, alloc: Global, token: Token<'_>) -> Result<(), Memory>
        ensures { IfOk result (λ _. self.new ≡ begin_operand (seen token.entry) token.entry.from self.old) }
    {
        let from = place(token.from)?;
        match token.sort {
            Sort::GroupStart => self.push_two(
                Part::Expression(ExpressionPart::Whole),
                Part::Sequence(SequencePart::GroupEnd),
            ),
            Sort::BlockStart => {
                let outer = BoxedComments::new(alloc, self.take_held(alloc))?;
                self.push(Part::Block(BlockPart::Start {
                    enclosure: Enclosure::Block { from, outer },
                }))
            }
            Sort::BraceStart => self.push(Part::Sequence(SequencePart::Items {
                from,
                count: 0,
                further: false,
            })),
            _ => {
                self.push(Part::Literal(LiteralPart::BehindOperand { from }))?;
                self.begin_literal(alloc, token)
            }
        }
    }

    /// A variable, or a metavariable that stands where one may.
    pub fn variable(&mut self, alloc: Global, token: Token<'_>) -> Result<(), Memory>
        ensures { IfOk result (λ _. self.new ≡ emitted (event.Var token.entry.from token.entry.to token.entry.text.now) self.old) }
    {
        let from = place(token.from)?;
        let to = place(token.to)?;
        let name = Text::from_slice(alloc, token.text)?;
        self.emit(Event::Var { from, to, name })
    }

    /// The first token of an expression.
    pub fn begin_expression(&mut self, alloc: Global, token: Token<'_>) -> Result<(), Memory>
        ensures { IfOk result (λ _. self.new ≡ begin_expression (seen token.entry) token.entry.from token.entry.to self.old) }
    {
        let from = place(token.from)?;
        match token.sort {
            Sort::Name | Sort::Super => {
                let to = place(token.to)?;
                let name = Text::from_slice(alloc, token.text)?;
                self.push(Part::Expression(ExpressionPart::BehindName {
                    from,
                    to,
                    name,
                    is_super: is_super(token.sort),
                }))
            }
            _ => {
                let row = Row::Unary;
                let told = false;
                self.push(Part::Message(MessagePart::All { from, row, told }))?;
                match token.sort {
                    Sort::AnyName | Sort::AnyLiteral | Sort::AnyExpression => self.variable(
                        alloc, token,
                    ),
                    _ => self.begin_operand(alloc, token),
                }
            }
        }
    }

    /// The first token of an argument, with the part for its messages.
    fn begin_argument(
        &mut self,
        alloc: Global,
        part: MessagePart,
        token: Token<'_>,
    ) -> Result<(), Memory>
        ensures { IfOk result (λ _. self.new ≡ begin_argument (Part.Message part) (seen token.entry) token.entry.from token.entry.to self.old) }
    {
        match token.sort {
            Sort::Name | Sort::Super | Sort::AnyName | Sort::AnyLiteral | Sort::AnyExpression => {
                self.variable(alloc, token)?;
                self.push(Part::Message(part))
            }
            _ => {
                self.push(Part::Message(part))?;
                self.begin_operand(alloc, token)
            }
        }
    }

    /// The token behind the first name of an expression.
    fn take_behind_name(
        &mut self,
        alloc: Global,
        from: u32,
        to: u32,
        name: Text,
        is_super: bool,
        token: Token<'_>,
    ) -> Result<(), Memory>
        ensures { IfOk result (λ _. self.new ≡ expression_taken (ExpressionPart.BehindName from to name is_super) (seen token.entry) token.entry.from token.entry.to self.old) }
    {
        match token.sort {
            Sort::Assignment => {
                self.emit(Event::Target { from, name })?;
                self.push_two(
                    Part::Expression(ExpressionPart::Whole),
                    Part::Expression(ExpressionPart::BehindValue { from }),
                )
            }
            _ => {
                self.emit(Event::Var { from, to, name })?;
                self.take_message(alloc, from, row_of(is_super), token)
            }
        }
    }

    /// The operand of a whole message of a pattern.
    fn take_any(&mut self, alloc: Global, token: Token<'_>) -> Result<(), Memory>
        ensures { IfOk result (λ _. self.new ≡ expression_taken ExpressionPart.AnyArgument (seen token.entry) token.entry.from token.entry.to self.old) }
    {
        match token.sort {
            Sort::AnyName | Sort::AnyLiteral | Sort::AnyExpression => self.variable(alloc, token),
            _ => Ok(()),
        }
    }

    /// A token that a part of an expression takes.
    pub fn take_in_expression(
        &mut self,
        alloc: Global,
        part: ExpressionPart,
        token: Token<'_>,
    ) -> Result<(), Memory>
        ensures { IfOk result (λ _. self.new ≡ expression_taken part (seen token.entry) token.entry.from token.entry.to self.old) }
    {
        let from = place(token.from)?;
        let is_super = is_super(token.sort);
        match part {
            ExpressionPart::Whole => self.begin_expression(alloc, token),
            ExpressionPart::BinaryArgument => self.begin_argument(
                alloc,
                MessagePart::OfBinary { from, is_super },
                token,
            ),
            ExpressionPart::KeywordArgument => self.begin_argument(
                alloc,
                MessagePart::OfKeyword {
                    from,
                    row: row_of(is_super),
                },
                token,
            ),
            ExpressionPart::BehindName {
                from,
                to,
                name,
                is_super,
            } => self.take_behind_name(alloc, from, to, name, is_super, token),
            ExpressionPart::BehindValue { .. } => Ok(()),
            ExpressionPart::AnyArgument => self.take_any(alloc, token),
        }
    }

    /// What is found where a part of an expression is over.
    pub fn pass_expression(&mut self, part: ExpressionPart) -> Result<(), Memory>
        ensures { IfOk result (λ _. self.new ≡ passed (Part.Expression part) self.old) }
    {
        match part {
            ExpressionPart::BehindName { from, to, name, .. } => self.emit(Event::Var {
                from,
                to,
                name,
            }),
            ExpressionPart::BehindValue { from } => {
                let to = self.last;
                self.emit(Event::Assign { from, to })
            }
            ExpressionPart::Whole
            | ExpressionPart::BinaryArgument
            | ExpressionPart::KeywordArgument
            | ExpressionPart::AnyArgument => Ok(()),
        }
    }
}
