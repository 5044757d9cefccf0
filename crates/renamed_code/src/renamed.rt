// What is renamed.

use name_meanings::VariableKind;
use rb_base::NameId;

/// What gets another name. Each name is a number of the image's table of names.
#[derive(Clone, Copy, Debug)]
pub enum Renamed {
    Class(NameId),
    /// The variable of a kind that a class defines.
    Variable {
        kind: VariableKind,
        class: NameId,
        variable: NameId,
    },
    Selector(NameId),
}
