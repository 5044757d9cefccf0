// The argument that comes or goes.

use commands::NewParameter;
use rb_base::NameId;

/// An argument that comes to a selector, or leaves it.
#[derive(Drop)]
pub enum ParameterChange<'a> {
    /// The methods of a selector take one more argument, and each message of it passes a literal.
    Added(&'a NewParameter),
    /// The argument of the selector goes, counted from 1, and the selector is `to`.
    Removed {
        selector: NameId,
        argument: usize,
        to: NameId,
    },
}
