// Literals.
ghost use Rattle.std.specs.Prelude.{◌≡◌, ◌++◌, ◌+◌, ◌∷◌, [], IfOk};
ghost use Rattle.grammar_model.specs.Literals.{word_or_symbol};
ghost use Rattle.parse_events.specs.Found.{literal_events};
ghost use Rattle.st_faults.specs.Lexing.{literal_of};
ghost use Rattle.st_events.specs.Steps.{begin_literal, begin_element, element_taken, joined_taken, literal_taken, passed};
ghost use Rattle.st_events.specs.Tokens.{seen};

use crate::part::{LiteralPart, Part};
use crate::reader::{Reader, one_more, place};
use crate::texts::{is_literal_word, second_byte, symbol_text, unquoted};
use crate::token::Token;
use parse_events::Event;
use rb_base::{Memory, Text};
use st_faults::Sort;
use std::alloc::Global;
use token_model::TokenKind;

/// The literal that a string, a character or a symbol spells.
fn constant(alloc: Global, kind: TokenKind, text: &[u8]) -> Result<Event, Memory>
    ensures { IfOk result (λ event. literal_events (literal_of kind text.now) ≡ event ∷ []) }
{
    let event = match kind {
        TokenKind::Character => Event::Char {
            byte: second_byte(text),
        },
        TokenKind::Symbol => Event::Symbol {
            text: symbol_text(alloc, text)?,
        },
        _ => Event::Str {
            text: unquoted(alloc, text)?,
        },
    };
    Ok(event)
}

/// What an identifier in an array is.
fn word(alloc: Global, text: &[u8]) -> Result<Event, Memory>
    ensures { IfOk result (λ event. literal_events (word_or_symbol text.now) ≡ event ∷ []) }
{
    let name = Text::from_slice(alloc, text)?;
    if is_literal_word(text) {
        Ok(Event::Word { name })
    } else {
        Ok(Event::Symbol { text: name })
    }
}

impl Reader {
    /// The first token of a literal.
    pub fn begin_literal(&mut self, alloc: Global, token: Token<'_>) -> Result<(), Memory>
        ensures { IfOk result (λ _. self.new ≡ begin_literal (seen token.entry) self.old) }
    {
        match token.sort {
            Sort::Sign => {
                let sign = Text::from_slice(alloc, token.text)?;
                self.push(Part::Literal(LiteralPart::Numeral { sign }))
            }
            Sort::SmallNumeral | Sort::LargeNumeral | Sort::OtherNumeral => {
                let text = Text::from_slice(alloc, token.text)?;
                self.emit(Event::Number { text })
            }
            Sort::Constant => {
                let event = constant(alloc, token.kind, token.text)?;
                self.emit(event)
            }
            Sort::ArrayStart => self.push(Part::Literal(LiteralPart::Elements { count: 0 })),
            Sort::BytesStart => self.push(Part::Literal(LiteralPart::Bytes { count: 0 })),
            _ => Ok(()),
        }
    }

    /// An element of an array that is no keyword, or its first token.
    fn begin_element(&mut self, alloc: Global, token: Token<'_>) -> Result<(), Memory>
        ensures { IfOk result (λ _. self.new ≡ begin_element (seen token.entry) self.old) }
    {
        match token.sort {
            Sort::Name | Sort::Super => {
                let event = word(alloc, token.text)?;
                self.emit(event)
            }
            Sort::Binary | Sort::Less | Sort::Greater | Sort::Bar => {
                let text = Text::from_slice(alloc, token.text)?;
                self.emit(Event::Symbol { text })
            }
            Sort::GroupStart => self.push(Part::Literal(LiteralPart::Elements { count: 0 })),
            Sort::BlockStart => self.push(Part::Literal(LiteralPart::Bytes { count: 0 })),
            _ => self.begin_literal(alloc, token),
        }
    }

    /// An element of an array behind so many others, or the mark that closes it.
    fn take_element(&mut self, alloc: Global, count: u32, token: Token<'_>) -> Result<(), Memory>
        ensures { IfOk result (λ _. self.new ≡ element_taken count (seen token.entry) token.entry.to self.old) }
    {
        match token.sort {
            Sort::GroupEnd => self.emit(Event::Array { items: count }),
            Sort::Keyword | Sort::PrimitiveKeyword | Sort::AnyKey => {
                let symbol = Text::from_slice(alloc, token.text)?;
                let to = place(token.to)?;
                let count = one_more(count)?;
                self.push(Part::Literal(LiteralPart::BehindKeyword { symbol, to, count }))
            }
            _ => {
                let count = one_more(count)?;
                self.push(Part::Literal(LiteralPart::Elements { count }))?;
                self.begin_element(alloc, token)
            }
        }
    }

    /// A number of a byte array behind so many others, or the mark that closes it.
    fn take_byte(&mut self, alloc: Global, count: u32, token: Token<'_>) -> Result<(), Memory>
        ensures { IfOk result (λ _. self.new ≡ literal_taken (LiteralPart.Bytes count) (seen token.entry) token.entry.from token.entry.to self.old) }
    {
        match token.sort {
            Sort::SmallNumeral | Sort::LargeNumeral | Sort::OtherNumeral => {
                let text = Text::from_slice(alloc, token.text)?;
                let count = one_more(count)?;
                self.emit(Event::Number { text })?;
                self.push(Part::Literal(LiteralPart::Bytes { count }))
            }
            Sort::BlockEnd => self.emit(Event::Bytes { items: count }),
            _ => Ok(()),
        }
    }

    /// The numeral behind a sign.
    fn take_numeral(&mut self, sign: Text, token: Token<'_>) -> Result<(), Memory>
        ensures { IfOk result (λ _. self.new ≡ literal_taken (LiteralPart.Numeral sign) (seen token.entry) token.entry.from token.entry.to self.old) }
    {
        match token.sort {
            Sort::SmallNumeral | Sort::LargeNumeral | Sort::OtherNumeral => {
                let mut text = sign;
                text.push_slice(token.text)?;
                self.emit(Event::Number { text })
            }
            _ => Ok(()),
        }
    }

    /// A token of an array behind keywords that end at a place, the last of so many elements. A keyword that begins there is
    /// joined to them.
    fn take_behind_keyword(
        &mut self,
        alloc: Global,
        symbol: Text,
        to: u32,
        count: u32,
        token: Token<'_>,
    ) -> Result<(), Memory>
        ensures { IfOk result (λ _. self.new ≡ joined_taken symbol to count (seen token.entry) token.entry.from token.entry.to self.old) }
    {
        match token.sort {
            Sort::Keyword | Sort::PrimitiveKeyword | Sort::AnyKey if token.from == to as usize => {
                let mut symbol = symbol;
                symbol.push_slice(token.text)?;
                let to = place(token.to)?;
                self.push(Part::Literal(LiteralPart::BehindKeyword { symbol, to, count }))
            }
            _ => {
                self.emit(Event::Symbol { text: symbol })?;
                self.take_element(alloc, count, token)
            }
        }
    }

    /// A token that a part of a literal takes.
    pub fn take_in_literal(
        &mut self,
        alloc: Global,
        part: LiteralPart,
        token: Token<'_>,
    ) -> Result<(), Memory>
        ensures { IfOk result (λ _. self.new ≡ literal_taken part (seen token.entry) token.entry.from token.entry.to self.old) }
    {
        match part {
            LiteralPart::Numeral { sign } => self.take_numeral(sign, token),
            LiteralPart::Elements { count } => self.take_element(alloc, count, token),
            LiteralPart::BehindKeyword { symbol, to, count } => self.take_behind_keyword(
                alloc, symbol, to, count, token,
            ),
            LiteralPart::Bytes { count } => self.take_byte(alloc, count, token),
            LiteralPart::BehindOperand { .. } => Ok(()),
        }
    }

    /// What is found where a part of a literal is over.
    pub fn pass_literal(&mut self, part: LiteralPart) -> Result<(), Memory>
        ensures { IfOk result (λ _. self.new ≡ passed (Part.Literal part) self.old) }
    {
        let to = self.last;
        match part {
            LiteralPart::BehindOperand { from } => self.emit(Event::Literal { from, to }),
            LiteralPart::Numeral { .. }
            | LiteralPart::Elements { .. }
            | LiteralPart::BehindKeyword { .. }
            | LiteralPart::Bytes { .. } => Ok(()),
        }
    }
}
