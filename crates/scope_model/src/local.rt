/// What a method or do-it, with its blocks, says of a name at one place in it.
#[derive(Clone, Copy, Debug, PartialEq, Eq)]
pub enum Local {
    /// An argument of the method or a parameter of a block. `scope` is how many steps of the path to the place lead to
    /// that block, from 1; it is 0 for the method.
    Argument { scope: usize },
    /// A temporary of the method or of a block, with `scope` as above.
    Temporary { scope: usize },
    /// Neither is declared round the place, or the name is a pseudo-variable's.
    NotLocal,
}

/// Which literal blocks a selector demands to make a control send.
#[derive(Clone, Copy, Debug, PartialEq, Eq)]
pub enum ControlForm {
    /// One argument, a literal block without parameters.
    OneBlock,
    /// Two arguments, both literal blocks without parameters.
    TwoBlocks,
    /// The receiver and one argument, both literal blocks without parameters.
    Loop,
    /// The selector makes no control send.
    NoControl,
}
