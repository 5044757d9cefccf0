// What blocks declare.
ghost use Rattle.std.specs.Prelude.{◌≡◌, IfOk};
ghost use Rattle.st_events.specs.Steps.{declared, block_body_taken, block_taken};
ghost use Rattle.st_events.specs.Tokens.{seen};

use crate::part::{BlockPart, Enclosure, Part, Rest, SequencePart};
use crate::reader::{Reader, declare};
use crate::token::Token;
use parse_events::{Declarations, Event};
use rb_base::Memory;
use st_faults::Sort;
use std::alloc::Global;

impl Reader {
    /// The token behind the bracket of a block.
    fn take_block_start(
        &mut self,
        alloc: Global,
        enclosure: Enclosure,
        token: Token<'_>,
    ) -> Result<(), Memory>
        ensures { IfOk result (λ _. self.new ≡ block_taken (BlockPart.Start enclosure) (seen token.entry) token.entry.from token.entry.to self.old) }
    {
        let parameters = Declarations::new(alloc);
        match token.sort {
            Sort::Colon => self.push(Part::Block(BlockPart::Parameter {
                enclosure,
                parameters,
            })),
            _ => self.take_temporaries(alloc, enclosure, parameters, token),
        }
    }

    /// A parameter.
    fn take_parameter(
        &mut self,
        alloc: Global,
        enclosure: Enclosure,
        parameters: Declarations,
        token: Token<'_>,
    ) -> Result<(), Memory>
        ensures { IfOk result (λ _. self.new ≡ block_taken (BlockPart.Parameter enclosure parameters) (seen token.entry) token.entry.from token.entry.to self.old) }
    {
        match token.sort {
            Sort::Name | Sort::Super => {
                let mut parameters = parameters;
                declare(alloc, &mut parameters, token)?;
                self.push(Part::Block(BlockPart::BehindParameter {
                    enclosure,
                    parameters,
                }))
            }
            _ => Ok(()),
        }
    }

    /// The token behind a parameter.
    fn take_behind_parameter(
        &mut self,
        alloc: Global,
        enclosure: Enclosure,
        parameters: Declarations,
        token: Token<'_>,
    ) -> Result<(), Memory>
        ensures { IfOk result (λ _. self.new ≡ block_taken (BlockPart.BehindParameter enclosure parameters) (seen token.entry) token.entry.from token.entry.to self.old) }
    {
        match token.sort {
            Sort::Colon => self.push(Part::Block(BlockPart::Parameter {
                enclosure,
                parameters,
            })),
            Sort::Binary | Sort::Sign | Sort::Less | Sort::Greater | Sort::Bar => self.push(
                Part::Block(BlockPart::Temporaries {
                    enclosure,
                    parameters,
                }),
            ),
            _ => self.take_temporaries(alloc, enclosure, parameters, token),
        }
    }

    /// A bar, or the first token of a block's statements, which has these parameters.
    fn take_temporaries(
        &mut self,
        alloc: Global,
        enclosure: Enclosure,
        parameters: Declarations,
        token: Token<'_>,
    ) -> Result<(), Memory>
        ensures { IfOk result (λ _. self.new ≡ block_body_taken enclosure parameters (seen token.entry) token.entry.from token.entry.to self.old) }
    {
        match token.sort {
            Sort::Bar => self.push(Part::Block(BlockPart::Names {
                enclosure,
                parameters,
                temporaries: Declarations::new(alloc),
            })),
            _ => {
                let temporaries = Declarations::new(alloc);
                self.emit(Event::Enter {
                    parameters,
                    temporaries,
                })?;
                self.take_statement(alloc, enclosure, 0, Rest::Any, token)
            }
        }
    }

    /// A temporary, or the bar behind the last one.
    fn take_temporary(
        &mut self,
        alloc: Global,
        enclosure: Enclosure,
        parameters: Declarations,
        temporaries: Declarations,
        token: Token<'_>,
    ) -> Result<(), Memory>
        ensures { IfOk result (λ _. self.new ≡ block_taken (BlockPart.Names enclosure parameters temporaries) (seen token.entry) token.entry.from token.entry.to self.old) }
    {
        match token.sort {
            Sort::Name | Sort::Super => {
                let mut temporaries = temporaries;
                declare(alloc, &mut temporaries, token)?;
                self.push(Part::Block(BlockPart::Names {
                    enclosure,
                    parameters,
                    temporaries,
                }))
            }
            Sort::Binary | Sort::Sign | Sort::Less | Sort::Greater | Sort::Bar => {
                self.emit(Event::Enter {
                    parameters,
                    temporaries,
                })?;
                self.push(Part::Sequence(SequencePart::Statements {
                    enclosure,
                    count: 0,
                    rest: Rest::Any,
                }))
            }
            _ => Ok(()),
        }
    }

    /// A token that a part of a block's head takes.
    pub fn take_in_block(
        &mut self,
        alloc: Global,
        part: BlockPart,
        token: Token<'_>,
    ) -> Result<(), Memory>
        ensures { IfOk result (λ _. self.new ≡ block_taken part (seen token.entry) token.entry.from token.entry.to self.old) }
    {
        match part {
            BlockPart::Start { enclosure } => self.take_block_start(alloc, enclosure, token),
            BlockPart::Parameter {
                enclosure,
                parameters,
            } => self.take_parameter(alloc, enclosure, parameters, token),
            BlockPart::BehindParameter {
                enclosure,
                parameters,
            } => self.take_behind_parameter(alloc, enclosure, parameters, token),
            BlockPart::Temporaries {
                enclosure,
                parameters,
            } => self.take_temporaries(alloc, enclosure, parameters, token),
            BlockPart::Names {
                enclosure,
                parameters,
                temporaries,
            } => self.take_temporary(alloc, enclosure, parameters, temporaries, token),
        }
    }
}
