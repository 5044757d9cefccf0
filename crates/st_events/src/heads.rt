// What texts declare.
ghost use Rattle.std.specs.Prelude.{◌≡◌, IfOk};
ghost use Rattle.std.specs.Str.Parse.{digits_value};
ghost use Rattle.st_events.specs.Steps.{argument_taken, body_taken, head_taken, pushed};
ghost use Rattle.st_events.specs.Tokens.{seen};

use crate::numbers::number_of;
use crate::part::{Enclosure, HeadPart, Part, Rest, SequencePart};
use crate::reader::{Reader, declare};
use crate::token::Token;
use rb_base::{Memory, Text};
use st_faults::Sort;
use std::alloc::Global;

impl Reader {
    /// The first token of a method's pattern, of the kernel or not.
    fn take_pattern(&mut self, alloc: Global, kernel: bool, token: Token<'_>) -> Result<(), Memory>
        ensures { IfOk result (λ _. self.new ≡ head_taken (HeadPart.Pattern kernel) (seen token.entry) token.entry.from token.entry.to self.old) }
    {
        let part = match token.sort {
            Sort::Name | Sort::Super => HeadPart::MethodTemporaries { kernel },
            Sort::Binary | Sort::Sign | Sort::Less | Sort::Greater | Sort::Bar =>
                HeadPart::Argument { kernel },
            Sort::Keyword | Sort::PrimitiveKeyword | Sort::AnyKey => HeadPart::KeywordArgument {
                kernel,
            },
            _ => return Ok(()),
        };
        self.head.selector = Text::from_slice(alloc, token.text)?;
        self.push(Part::Head(part))
    }

    /// An argument, and the part that comes behind it.
    fn take_argument(
        &mut self,
        alloc: Global,
        behind: HeadPart,
        token: Token<'_>,
    ) -> Result<(), Memory>
        ensures { IfOk result (λ _. self.new ≡ argument_taken behind (seen token.entry) token.entry.from self.old) }
    {
        match token.sort {
            Sort::Name | Sort::Super => {
                declare(alloc, &mut self.head.arguments, token)?;
                self.push(Part::Head(behind))
            }
            _ => Ok(()),
        }
    }

    /// The first token of a method's body.
    fn take_body(&mut self, alloc: Global, token: Token<'_>) -> Result<(), Memory>
        ensures { IfOk result (λ _. self.new ≡ body_taken (seen token.entry) token.entry.from token.entry.to self.old) }
    {
        match token.sort {
            Sort::Bar => {
                self.head.opening = self.take_held(alloc);
                self.push(Part::Head(HeadPart::Names))
            }
            Sort::Less => self.push(Part::Head(HeadPart::Primitive)),
            _ => self.take_statement(alloc, Enclosure::Text, 0, Rest::Any, token),
        }
    }

    /// A further keyword of a pattern, or the first token of the method's body. The method is of the kernel or not.
    fn take_behind_argument(
        &mut self,
        alloc: Global,
        kernel: bool,
        token: Token<'_>,
    ) -> Result<(), Memory>
        ensures { IfOk result (λ _. self.new ≡ head_taken (HeadPart.BehindArgument kernel) (seen token.entry) token.entry.from token.entry.to self.old) }
    {
        match token.sort {
            Sort::Keyword | Sort::PrimitiveKeyword | Sort::AnyKey => {
                self.head.selector.push_slice(token.text)?;
                self.push(Part::Head(HeadPart::KeywordArgument { kernel }))
            }
            _ => self.take_body(alloc, token),
        }
    }

    /// The first token of a do-it.
    fn take_doit(&mut self, alloc: Global, token: Token<'_>) -> Result<(), Memory>
        ensures { IfOk result (λ _. self.new ≡ head_taken HeadPart.DoitTemporaries (seen token.entry) token.entry.from token.entry.to self.old) }
    {
        match token.sort {
            Sort::Bar => self.push(Part::Head(HeadPart::Names)),
            _ => self.take_statement(alloc, Enclosure::Text, 0, Rest::Any, token),
        }
    }

    /// A temporary, or the bar behind the last one.
    fn take_name(&mut self, alloc: Global, token: Token<'_>) -> Result<(), Memory>
        ensures { IfOk result (λ _. self.new ≡ head_taken HeadPart.Names (seen token.entry) token.entry.from token.entry.to self.old) }
    {
        match token.sort {
            Sort::Name | Sort::Super => {
                declare(alloc, &mut self.head.temporaries, token)?;
                self.push(Part::Head(HeadPart::Names))
            }
            _ => self.push(Part::Sequence(SequencePart::Statements {
                enclosure: Enclosure::Text,
                count: 0,
                rest: Rest::Any,
            })),
        }
    }

    /// The number of a primitive.
    fn take_number(&mut self, token: Token<'_>) -> Result<(), Memory>
        ensures { IfOk result (λ _. self.new ≡ head_taken HeadPart.PrimitiveNumber (seen token.entry) token.entry.from token.entry.to self.old) }
    {
        match token.sort {
            Sort::SmallNumeral | Sort::LargeNumeral | Sort::OtherNumeral => {
                let number = number_of(token.text)?;
                self.head.primitive = Some(number);
                self.push(Part::Head(HeadPart::PrimitiveEnd))
            }
            _ => Ok(()),
        }
    }

    /// A token that a part of a text's head takes.
    pub fn take_in_head(
        &mut self,
        alloc: Global,
        part: HeadPart,
        token: Token<'_>,
    ) -> Result<(), Memory>
        ensures { IfOk result (λ _. self.new ≡ head_taken part (seen token.entry) token.entry.from token.entry.to self.old) }
    {
        match part {
            HeadPart::Pattern { kernel } => self.take_pattern(alloc, kernel, token),
            HeadPart::Argument { kernel } => self.take_argument(
                alloc,
                HeadPart::MethodTemporaries { kernel },
                token,
            ),
            HeadPart::KeywordArgument { kernel } => self.take_argument(
                alloc,
                HeadPart::BehindArgument { kernel },
                token,
            ),
            HeadPart::BehindArgument { kernel } => self.take_behind_argument(alloc, kernel, token),
            HeadPart::MethodTemporaries { .. } => self.take_body(alloc, token),
            HeadPart::DoitTemporaries => self.take_doit(alloc, token),
            HeadPart::Names => self.take_name(alloc, token),
            HeadPart::Primitive => self.push(Part::Head(HeadPart::PrimitiveNumber)),
            HeadPart::PrimitiveNumber => self.take_number(token),
            HeadPart::PrimitiveEnd => self.push(Part::Sequence(SequencePart::Statements {
                enclosure: Enclosure::Text,
                count: 0,
                rest: Rest::Nothing,
            })),
        }
    }
}
