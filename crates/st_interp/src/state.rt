// What the machine holds.

use rb_base::NameId;
use st_meaning::{Context, RunError, Store, Value, Values};
use st_tree::{Message, Node, Sequence, Statement};
use std::rc::Rc;

/// A loop: its test, its body, and what the test has to be for it to go on.
#[derive(Clone, Copy, Drop)]
pub struct Loop<'p> {
    pub sense: bool,
    pub test: &'p Sequence,
    pub body: &'p Sequence,
}

/// A way of a control send: a block that is run in place, or a value.
#[derive(Clone, Copy, Drop)]
pub enum Branch<'p> {
    Runs(&'p Sequence),
    Nil,
    True,
    False,
}

/// What the values of trees are wanted for.
#[derive(Drop)]
pub enum Purpose<'p> {
    /// The arguments of a send, whose receiver has a value.
    Send {
        receiver: Value,
        node: &'p Node,
        selector: NameId,
    },
    /// The arguments of a message of a cascade.
    Message {
        receiver: Value,
        selector: NameId,
    },
    /// The items of a brace array.
    Brace,
}

/// What waits for a value.
#[derive(Drop)]
pub enum Pending<'p> {
    /// A send, for the value of its receiver.
    Receiver {
        node: &'p Node,
        selector: NameId,
        arguments: &'p [Node],
        context: Rc<Context>,
    },
    /// Values in a row, for the next one.
    Arguments {
        purpose: Purpose<'p>,
        done: Values,
        left: &'p [Node],
        context: Rc<Context>,
    },
    /// An assignment.
    Assign {
        name: NameId,
        context: Rc<Context>,
    },
    /// A return.
    Return {
        context: Rc<Context>,
    },
    /// A cascade, for the value of its receiver.
    Cascade {
        messages: &'p [Message],
        context: Rc<Context>,
    },
    /// A cascade, for the value of a message that is not its last.
    Cascaded {
        receiver: Value,
        left: &'p [Message],
        context: Rc<Context>,
    },
    /// Statements, for the value of the one before them.
    Sequence {
        left: &'p [Statement],
        context: Rc<Context>,
    },
    /// A method, which answers this value in the end.
    Answer {
        value: Value,
    },
    /// The home of a number, which ends.
    Home {
        home: usize,
    },
    /// A control send with two ways, for the value of its receiver.
    Branch {
        yes: Branch<'p>,
        no: Branch<'p>,
        context: Rc<Context>,
    },
    /// A loop, for the value of its test.
    Tested {
        blocks: Loop<'p>,
        context: Rc<Context>,
    },
    /// A loop, for the value of its body.
    Turned {
        blocks: Loop<'p>,
        context: Rc<Context>,
    },
}

/// How an evaluation leaves off.
#[derive(Drop)]
pub enum Exit {
    /// With a return to the home of a number.
    Back { home: usize, value: Value },
    Failed(RunError),
    /// Without ticks.
    Spent,
}

/// What an evaluation came to.
#[derive(Drop)]
pub enum Ending {
    Value(Value),
    Exit(Exit),
}

/// What is to be done next.
#[derive(Drop)]
pub enum Next<'p> {
    Evaluate(&'p Node, Rc<Context>),
    Give(Value),
    Leave(Exit),
    Over(Ending),
}

/// What waits, the innermost last, and the store.
#[derive(Drop)]
pub struct Machine<'p> {
    pub stack: Vec<Pending<'p>>,
    pub store: Store<'p>,
}
