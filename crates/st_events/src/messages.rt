// Messages and cascades.
ghost use Rattle.std.specs.Prelude.{◌≡◌, ◌++◌, ◌+◌, ◌∷◌, [], Some, IfOk, OnOk};
ghost use Rattle.parse_events.specs.declared.event.Event.TheVariants as event;
ghost use Rattle.st_events.specs.Steps.{emitted, pushed, message_event, recast, message_of, message_taken, operator_taken, cascade_taken, messages_taken, passed};
ghost use Rattle.st_events.specs.Tokens.{seen};

use crate::part::{ExpressionPart, MessagePart, Part, Row, Target};
use crate::reader::{Reader, one_more, place};
use crate::token::Token;
use parse_events::{Event, Events};
use rb_base::{Memory, Text};
use st_faults::Sort;
use std::alloc::Global;

/// The message of so many arguments to a receiver, or of a cascade where there is none.
pub fn message_event(from: Option<u32>, to: u32, selector: Text, arguments: u32) -> Event
    ensures { result ≡ message_event from to selector arguments }
{
    match from {
        Some(from) => Event::Send {
            from,
            to,
            arguments,
            selector,
        },
        None => Event::Message {
            selector,
            arguments,
        },
    }
}

/// The event of a message of a cascade for that of a send.
fn message_of(event: Event) -> Event
    ensures { result ≡ message_of event }
{
    match event {
        Event::Send {
            selector,
            arguments,
            ..
        } => Event::Message {
            selector,
            arguments,
        },
        event => event,
    }
}

/// Makes the last event, a send, that of the first message of a cascade. Before a cascade there is one.
#[tactic(auto, using(crate::proofs::Recasting::recast_last))]
fn recast(events: &mut Events) -> Result<(), Memory>
    ensures { OnOk result (events.new ≡ recast events.old) }
{
    let event = events.pop().ok_or(Memory)?;
    events.push(message_of(event))?;
    Ok(())
}

impl Reader {
    /// A unary message, and the part that reads further ones.
    fn unary(
        &mut self,
        alloc: Global,
        part: MessagePart,
        from: u32,
        token: Token<'_>,
    ) -> Result<(), Memory>
        ensures { IfOk result (λ _. self.new ≡ pushed (Part.Message part) (emitted (event.Send from token.entry.to 0 token.entry.text.now) self.old)) }
    {
        let selector = Text::from_slice(alloc, token.text)?;
        let to = place(token.to)?;
        self.emit(Event::Send {
            from,
            to,
            arguments: 0,
            selector,
        })?;
        self.push(Part::Message(part))
    }

    /// A message with one argument, to a receiver that begins at a place or of a cascade, and the part that reads what comes behind it.
    fn one_argument(
        &mut self,
        alloc: Global,
        from: Option<u32>,
        argument: ExpressionPart,
        part: MessagePart,
        token: Token<'_>,
    ) -> Result<(), Memory>
        ensures { IfOk result (λ _. self.new ≡ pushed (Part.Expression argument) (pushed (Part.Message (MessagePart.BehindArgument from token.entry.text.now)) (pushed (Part.Message part) self.old))) }
    {
        let selector = Text::from_slice(alloc, token.text)?;
        self.push(Part::Message(part))?;
        self.push_two(
            Part::Expression(argument),
            Part::Message(MessagePart::BehindArgument { from, selector }),
        )
    }

    /// The first keyword of a message to a target.
    fn keywords(&mut self, alloc: Global, target: Target, token: Token<'_>) -> Result<(), Memory>
        ensures { IfOk result (λ _. self.new ≡ pushed (Part.Expression ExpressionPart.KeywordArgument) (pushed (Part.Message (MessagePart.BehindKeyword target 1 token.entry.text.now)) self.old)) }
    {
        let selector = Text::from_slice(alloc, token.text)?;
        self.push_two(
            Part::Expression(ExpressionPart::KeywordArgument),
            Part::Message(MessagePart::BehindKeyword {
                target,
                selector,
                arguments: 1,
            }),
        )
    }

    /// The first semicolon of a cascade, behind a message to a receiver that begins at a place.
    fn begin_cascade(&mut self, from: u32) -> Result<(), Memory>
        ensures { IfOk result (λ _. self.new ≡ pushed (Part.Message (MessagePart.InCascade from 2)) (record self.old { events = recast self.old.events })) }
    {
        recast(&mut self.events)?;
        self.push(Part::Message(MessagePart::InCascade { from, messages: 2 }))
    }

    /// A message to the receiver from a place on, or its cascade.
    pub fn take_message(
        &mut self,
        alloc: Global,
        from: u32,
        row: Row,
        token: Token<'_>,
    ) -> Result<(), Memory>
        ensures { IfOk result (λ _. self.new ≡ message_taken from row (seen token.entry) token.entry.to self.old) }
    {
        let told = match row {
            Row::Super => false,
            Row::Unary | Row::Binary => true,
        };
        match token.sort {
            Sort::Name | Sort::Super | Sort::AnyName => {
                let row = Row::Unary;
                self.unary(alloc, MessagePart::All { from, row, told }, from, token)
            }
            Sort::Binary | Sort::Sign | Sort::Less | Sort::Greater | Sort::Bar => {
                let row = Row::Binary;
                let further = MessagePart::All { from, row, told };
                self.one_argument(
                    alloc,
                    Some(from),
                    ExpressionPart::BinaryArgument,
                    further,
                    token,
                )
            }
            Sort::Keyword | Sort::PrimitiveKeyword | Sort::AnyKey => self.keywords(
                alloc,
                Target::Receiver { from, told },
                token,
            ),
            Sort::AnyMessage => {
                let further = MessagePart::BehindAny { from, told };
                self.one_argument(
                    alloc,
                    Some(from),
                    ExpressionPart::AnyArgument,
                    further,
                    token,
                )
            }
            Sort::Semicolon => self.begin_cascade(from),
            _ => Ok(()),
        }
    }

    /// A unary or binary message in an argument that begins at a place, with the parts behind either.
    fn take_operator(
        &mut self,
        alloc: Global,
        unary: MessagePart,
        binary: MessagePart,
        from: u32,
        token: Token<'_>,
    ) -> Result<(), Memory>
        ensures { IfOk result (λ _. self.new ≡ operator_taken (Part.Message unary) (Part.Message binary) from (seen token.entry) token.entry.to self.old) }
    {
        match token.sort {
            Sort::Name | Sort::Super | Sort::AnyName => self.unary(alloc, unary, from, token),
            Sort::Binary | Sort::Sign | Sort::Less | Sort::Greater | Sort::Bar => self.one_argument(
                alloc,
                Some(from),
                ExpressionPart::BinaryArgument,
                binary,
                token,
            ),
            _ => Ok(()),
        }
    }

    /// A message of a cascade that begins at a place, the last of so many.
    fn take_in_cascade(
        &mut self,
        alloc: Global,
        from: u32,
        messages: u32,
        token: Token<'_>,
    ) -> Result<(), Memory>
        ensures { IfOk result (λ _. self.new ≡ cascade_taken from messages (seen token.entry) self.old) }
    {
        let any = token.sort == Sort::AnyMessage;
        let further = MessagePart::BehindCascade {
            from,
            messages,
            any,
        };
        match token.sort {
            Sort::Name | Sort::Super | Sort::AnyName => {
                let selector = Text::from_slice(alloc, token.text)?;
                self.emit(Event::Message {
                    selector,
                    arguments: 0,
                })?;
                self.push(Part::Message(further))
            }
            Sort::Binary | Sort::Sign | Sort::Less | Sort::Greater | Sort::Bar => self.one_argument(
                alloc,
                None,
                ExpressionPart::BinaryArgument,
                further,
                token,
            ),
            Sort::Keyword | Sort::PrimitiveKeyword | Sort::AnyKey => self.keywords(
                alloc,
                Target::Cascade { from, messages },
                token,
            ),
            Sort::AnyMessage => self.one_argument(
                alloc,
                None,
                ExpressionPart::AnyArgument,
                further,
                token,
            ),
            _ => Ok(()),
        }
    }

    /// A further keyword of a message, or a semicolon behind it.
    fn take_keyword(
        &mut self,
        target: Target,
        selector: Text,
        arguments: u32,
        token: Token<'_>,
    ) -> Result<(), Memory>
        ensures { IfOk result (λ _. self.new ≡ messages_taken (MessagePart.BehindKeyword target arguments selector) (seen token.entry) token.entry.to self.old) }
    {
        match token.sort {
            Sort::Keyword | Sort::PrimitiveKeyword | Sort::AnyKey => {
                let mut selector = selector;
                selector.push_slice(token.text)?;
                let arguments = one_more(arguments)?;
                self.push_two(
                    Part::Expression(ExpressionPart::KeywordArgument),
                    Part::Message(MessagePart::BehindKeyword {
                        target,
                        selector,
                        arguments,
                    }),
                )
            }
            _ => {
                self.emit(Event::Message {
                    selector,
                    arguments,
                })?;
                match target {
                    Target::Receiver { from, .. } => self.push(Part::Message(
                        MessagePart::InCascade { from, messages: 2 },
                    )),
                    Target::Cascade { from, messages } => self.take_semicolon(from, messages),
                }
            }
        }
    }

    /// A further semicolon of a cascade.
    fn take_semicolon(&mut self, from: u32, messages: u32) -> Result<(), Memory>
        ensures { IfOk result (λ _. self.new ≡ pushed (Part.Message (MessagePart.InCascade from (messages + 1))) self.old) }
    {
        let messages = one_more(messages)?;
        self.push(Part::Message(MessagePart::InCascade { from, messages }))
    }

    /// A token that a part of messages takes.
    pub fn take_in_messages(
        &mut self,
        alloc: Global,
        part: MessagePart,
        token: Token<'_>,
    ) -> Result<(), Memory>
        ensures { IfOk result (λ _. self.new ≡ messages_taken part (seen token.entry) token.entry.to self.old) }
    {
        match part {
            MessagePart::All { from, row, .. } => self.take_message(alloc, from, row, token),
            MessagePart::BehindAny { from, .. } => self.take_message(
                alloc,
                from,
                Row::Unary,
                token,
            ),
            MessagePart::OfKeyword { from, .. } => {
                let unary = MessagePart::OfKeyword {
                    from,
                    row: Row::Unary,
                };
                let binary = MessagePart::OfKeyword {
                    from,
                    row: Row::Binary,
                };
                self.take_operator(alloc, unary, binary, from, token)
            }
            MessagePart::OfBinary { from, .. } => {
                let is_super = false;
                let unary = MessagePart::OfBinary { from, is_super };
                let binary = MessagePart::OfBinary { from, is_super };
                self.take_operator(alloc, unary, binary, from, token)
            }
            MessagePart::BehindArgument { .. } => Ok(()),
            MessagePart::BehindKeyword {
                target,
                selector,
                arguments,
            } => self.take_keyword(target, selector, arguments, token),
            MessagePart::InCascade { from, messages } => self.take_in_cascade(
                alloc, from, messages, token,
            ),
            MessagePart::BehindCascade { from, messages, .. } => self.take_semicolon(
                from, messages,
            ),
        }
    }

    /// What is found where a part of messages is over.
    pub fn pass_messages(&mut self, part: MessagePart) -> Result<(), Memory>
        ensures { IfOk result (λ _. self.new ≡ passed (Part.Message part) self.old) }
    {
        let to = self.last;
        match part {
            MessagePart::BehindArgument { from, selector } => self.emit(message_event(
                from, to, selector, 1,
            )),
            MessagePart::BehindKeyword {
                target,
                selector,
                arguments,
            } => match target {
                Target::Receiver { from, .. } => self.emit(message_event(
                    Some(from),
                    to,
                    selector,
                    arguments,
                )),
                Target::Cascade { from, messages } => {
                    self.emit(message_event(None, to, selector, arguments))?;
                    self.emit(Event::Cascade { from, to, messages })
                }
            },
            MessagePart::BehindCascade { from, messages, .. } => self.emit(Event::Cascade {
                from,
                to,
                messages,
            }),
            MessagePart::All { .. }
            | MessagePart::OfKeyword { .. }
            | MessagePart::OfBinary { .. }
            | MessagePart::BehindAny { .. }
            | MessagePart::InCascade { .. } => Ok(()),
        }
    }
}
