// Questions.

use name_meanings::VariableKind;
use rb_base::NameId;

/// What is asked of an image. Each name is a number of the image's table of names.
#[derive(Clone, Copy)]
pub enum Query {
    /// Who sends the selector.
    Senders(NameId),
    /// Who implements the selector.
    Implementors(NameId),
    /// Which nodes mean the class of the name.
    Class(NameId),
    /// Which nodes mean the variable of a kind and a name that the class of a name defines.
    Variable {
        kind: VariableKind,
        class: NameId,
        name: NameId,
    },
}
