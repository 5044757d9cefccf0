// What was found in a text so far, and what may come next.
ghost use Rattle.std.specs.Prelude.{◌≡◌, ◌+◌, [], ◌∷◌, ◌++◌, OnOk, IfOk, IfSome, IfNone};
ghost use Rattle.st_events.specs.Steps.{pushed, emitted, cleared, stated, declared};

use crate::part::Part;
use crate::token::Token;
use parse_events::{Declaration, Declarations, Event, Events};
use rb_base::{Memory, Text};
use st_tree::Comments;
use std::alloc::Global;
use std::marker::Model;
use std::mem;

/// Parts that come one after the other. Contracts see a list, of which the first comes next.
#[derive(Drop)]
pub struct Stack {
    parts: Vec<Part>,
}

impl Model for Stack {
    ghost use Rattle.std.specs.Prelude.{List, reverse};
    ghost use Rattle.st_events.specs.declared.part.Part.{Part};

    ghost Value = { List Part };

    ghost view = { λ a. reverse a.parts.items };
}

impl Stack {
    /// No parts, with room for so many.
    pub fn with_room(alloc: Global, count: usize) -> Result<Stack, Memory>
        ensures { IfOk result (λ stack. stack ≡ []) }
    {
        Ok(Stack {
            parts: Vec::with_capacity(alloc, count)?,
        })
    }

    /// Puts a part before all others.
    #[inline]
    pub fn push(&mut self, part: Part) -> Result<(), Memory>
        ensures { OnOk result (self.new ≡ part ∷ self.old) }
    {
        self.parts.push(part)?;
        Ok(())
    }

    /// Takes the first part off.
    #[inline]
    pub fn pop(&mut self) -> Option<Part>
        ensures some { IfSome result (λ part. self.old ≡ part ∷ self.new) }
        ensures none { IfNone result (self.old ≡ []) }
    {
        self.parts.pop()
    }
}

/// What a text declares, and its last comments.
#[derive(Drop)]
pub struct Head {
    pub selector: Text,
    pub arguments: Declarations,
    pub opening: Comments,
    pub primitive: Option<u16>,
    pub temporaries: Declarations,
    pub tail: Comments,
}

/// A number and one. `Memory` where that is 2^32.
#[inline]
pub fn one_more(count: u32) -> Result<u32, Memory>
    ensures { IfOk result (λ more. more ≡ count + 1) }
{
    count.checked_add(1).ok_or(Memory)
}

/// A place of a text, in four bytes. `Memory` where it lies 4 GiB or more behind the text's start.
#[inline]
pub fn place(at: usize) -> Result<u32, Memory>
    ensures { IfOk result (λ p. p ≡ at) }
{
    u32::try_from(at).map_err(|_| Memory)
}

/// Appends the name of a token to declarations.
pub fn declare(
    alloc: Global,
    declarations: &mut Declarations,
    token: Token<'_>,
) -> Result<(), Memory>
    ensures { IfOk result (λ _. declarations.new ≡ declared declarations.old token.entry.text.now token.entry.from) }
{
    let from = place(token.from)?;
    let name = Text::from_slice(alloc, token.text)?;
    declarations.push(Declaration { name, from })
}

/// A reader of a text.
#[derive(Drop)]
pub struct Reader {
    /// What may come next.
    pub stack: Stack,
    /// What was found in statements.
    pub events: Events,
    /// The comments that belong to nothing yet.
    pub held: Comments,
    /// The place behind the last token, in bytes from the text's start.
    pub last: u32,
    /// What was found outside of statements.
    pub head: Head,
}

impl Reader {
    /// Puts a part before all others.
    #[inline]
    pub fn push(&mut self, part: Part) -> Result<(), Memory>
        ensures { IfOk result (λ _. self.new ≡ pushed part self.old) }
    {
        self.stack.push(part)
    }

    /// Puts two parts before all others, of which the first comes next.
    #[inline]
    pub fn push_two(&mut self, first: Part, second: Part) -> Result<(), Memory>
        ensures { IfOk result (λ _. self.new ≡ pushed first (pushed second self.old)) }
    {
        self.stack.push(second)?;
        self.stack.push(first)
    }

    /// Appends an event.
    #[inline]
    pub fn emit(&mut self, event: Event) -> Result<(), Memory>
        ensures { IfOk result (λ _. self.new ≡ emitted event self.old) }
    {
        self.events.push(event)
    }

    /// Takes the comments that are held.
    #[inline]
    pub fn take_held(&mut self, alloc: Global) -> Comments
        ensures held { result ≡ self.old.held }
        ensures cleared { self.new ≡ cleared self.old }
    {
        mem::replace(&mut self.held, Comments::new(alloc))
    }

    /// A statement is over, and the comments that are held are its own.
    pub fn state(&mut self, alloc: Global, from: u32) -> Result<(), Memory>
        ensures { IfOk result (λ _. self.new ≡ stated from self.old) }
    {
        let comments = self.take_held(alloc);
        self.emit(Event::Statement { from, comments })
    }
}
