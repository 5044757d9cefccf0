/// How loosely a message holds its receiver and its arguments, from the tightest to the loosest.
#[derive(Clone, Copy, Debug, PartialEq, Eq)]
pub enum Precedence {
    /// A message without arguments. Of expressions: all but those named below.
    Unary,
    /// An operator and its argument. Of expressions: a binary send.
    Binary,
    /// Keywords and their arguments. Of expressions: a keyword send, a cascade or an assignment.
    Keyword,
}
