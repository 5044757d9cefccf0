// What is found in a text.

use crate::boxed::BoxedComments;
use rb_base::Text;
use st_tree::Comments;
use std::alloc::Global;
use std::marker::Model;

/// A name that is declared: an argument, a parameter or a temporary.
#[derive(Drop)]
pub struct Declaration {
    pub name: Text,
    /// Where the name begins, in bytes from the text's start, of which there are less than 2^32.
    pub from: u32,
}

/// Declared names in order. Contracts see a list.
#[derive(Drop)]
pub struct Declarations {
    pub(crate) alloc: Global,
    /// None where nothing is declared, as in most blocks, so that an event that declares nothing is small.
    pub(crate) items: Option<Box<Vec<Declaration>>>,
}

/// A step of the building of a tree. Most come behind the parts of what they speak of, so a list of them builds its
/// tree with a stack. A place is in bytes from the text's start: `from` is that of the first byte of a node, and `to`
/// is the one behind its last byte. Parentheses round a node are no part of it. Places and counts take four bytes, so that
/// only a text of less than 4 GiB has events.
#[derive(Drop)]
pub enum Event {
    /// A number, by its numeral.
    Number {
        text: Text,
    },
    /// A string, by its bytes.
    Str {
        text: Text,
    },
    /// A symbol, by its bytes.
    Symbol {
        text: Text,
    },
    /// A character, by its code.
    Char {
        byte: u8,
    },
    /// `nil`, `true` or `false` inside an array.
    Word {
        name: Text,
    },
    /// An array of the last literals, as many as `items`.
    Array {
        items: u32,
    },
    /// A byte array of the last literals, as many as `items`.
    Bytes {
        items: u32,
    },
    /// The last literal is an operand.
    Literal {
        from: u32,
        to: u32,
    },
    /// A variable.
    Var {
        from: u32,
        to: u32,
        name: Text,
    },
    /// A message of the last operands, as many as `arguments`, to the one before them.
    Send {
        from: u32,
        to: u32,
        arguments: u32,
        selector: Text,
    },
    /// A message of a cascade, with the last operands, as many as `arguments`.
    Message {
        selector: Text,
        arguments: u32,
    },
    /// The last messages, as many as `messages`, to the operand before them.
    Cascade {
        from: u32,
        to: u32,
        messages: u32,
    },
    /// The variable of an assignment, whose value follows.
    Target {
        from: u32,
        name: Text,
    },
    /// The last operand is the value of the last variable of an assignment that has none yet.
    Assign {
        from: u32,
        to: u32,
    },
    /// What a block declares, whose statements follow.
    Enter {
        parameters: Declarations,
        temporaries: Declarations,
    },
    /// A block of the last statements, as many as `statements`, and of the last declarations that have no block yet.
    Block {
        from: u32,
        to: u32,
        statements: u32,
        tail: BoxedComments,
    },
    /// An array of the last operands, as many as `items`.
    Brace {
        from: u32,
        to: u32,
        items: u32,
    },
    /// The last operand is returned.
    Return {
        from: u32,
        to: u32,
    },
    /// The last node is a statement. Its first token begins at `from`, an opening parenthesis too.
    Statement {
        from: u32,
        comments: Comments,
    },
}

/// Events in order. Contracts see a list.
#[derive(Drop)]
pub struct Events {
    pub(crate) items: Vec<Event>,
}

/// What is found in a do-it, or in a method behind its pattern.
#[derive(Drop)]
pub struct SequenceEvents {
    pub temporaries: Declarations,
    /// Those of the statements.
    pub events: Events,
    /// The comments at the end.
    pub tail: Comments,
}

/// What is found in a method.
#[derive(Drop)]
pub struct MethodEvents {
    pub selector: Text,
    pub arguments: Declarations,
    /// The comments before the bar that opens the temporaries, where there is one.
    pub opening: Comments,
    /// The number of the primitive, from 0 to 65,535, where the method has one.
    pub primitive: Option<u16>,
    pub body: SequenceEvents,
}

impl Model for Declarations {
    ghost use Rattle.std.specs.Prelude.{List};
    ghost use Rattle.parse_events.specs.declared.event.Declaration.{Declaration};
    ghost use Rattle.parse_events.specs.Boxed.{items_of};

    ghost Value = { List Declaration };

    ghost view = { λ a. items_of a.items };
}

impl Model for Events {
    ghost use Rattle.std.specs.Prelude.{List};
    ghost use Rattle.parse_events.specs.declared.event.Event.{Event};

    ghost Value = { List Event };

    ghost view = { λ a. a.items.items };
}
