/// What could have stood where a text is wrong.
#[derive(Clone, Copy, Debug, PartialEq, Eq)]
pub enum Wanted {
    /// An operand.
    Operand,
    /// An identifier, and no other token.
    Identifier,
    /// An element of an array.
    Element,
    /// None of these.
    End,
}
