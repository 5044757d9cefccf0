// Questions on the code that has a selector or sends it.

use rb_base::NameId;

/// What is looked for.
#[derive(Clone, Copy, Debug)]
pub enum Fault {
    /// A method of the user that has the selector and reads the argument of a number, counted from 0, or has none of that
    /// number.
    Read { number: usize },
    /// Code in which a message of the selector passes something else than an atom or a name that is declared for the argument
    /// of a number, counted from 0.
    Passed { number: usize },
    /// Code of the user that has the selector or sends it, and is higher than 200 nodes.
    High,
}

/// Whether there is such code for a selector.
#[derive(Clone, Copy, Debug)]
pub struct Question {
    pub selector: NameId,
    pub fault: Fault,
}
