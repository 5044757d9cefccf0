// The variable that is read and assigned by messages.
ghost use Rattle.std.specs.Prelude.{◌≡◌, nat_eq};
ghost use Rattle.image_model.specs.Means.{of_instance};
ghost use Rattle.image_model.specs.Uses.{is_variable};
ghost use Rattle.name_meanings.specs.Meanings.{meaning_of};

use name_meanings::{Meaning, VariableKind};
use rb_base::NameId;

/// An instance variable that is read and assigned by messages to `self`. Each name is a number of the image's table of names.
#[derive(Clone, Copy, Debug)]
pub struct Abstraction {
    /// The class that defines the variable.
    pub class: NameId,
    /// The variable; the message that reads it has the same name.
    pub variable: NameId,
    /// The selector of the message that assigns it.
    pub setter: NameId,
    /// What the argument of the setter is called.
    pub parameter: NameId,
    /// The name `self`.
    pub self_name: NameId,
}

impl Abstraction {
    /// Whether a meaning is the variable of the class.
    pub(crate) fn is_meant(&self, meaning: Meaning) -> bool
        ensures { result ≡ is_variable nat_eq of_instance self.now.class (meaning_of meaning) }
    {
        let variable = Meaning::Variable {
            kind: VariableKind::Instance,
            definer: self.class,
        };
        meaning == variable
    }
}
