// Questions on what names mean in the code of an image.
ghost use Rattle.std.specs.Prelude.{◌≡◌};
ghost use Rattle.use_questions.specs.Questions as asked;

use name_meanings::VariableKind;
use rb_base::NameId;

/// Whose code is asked.
#[derive(Clone, Copy, Debug)]
pub enum Whose {
    /// All methods and do-its.
    Everyone,
    /// All methods and do-its, without the methods of the class of a name.
    Outside(NameId),
    /// The methods of the class of a name.
    Of(NameId),
    /// The methods of the class of a name and of classes below it.
    Below(NameId),
    /// The same, without those of another class and of classes below that one.
    BelowBut { class: NameId, except: NameId },
}

/// What a name is to mean.
#[derive(Clone, Copy, Debug)]
pub enum Meant {
    /// The class of a name.
    Class(NameId),
    /// The variable of a kind that the class of a name defines.
    Variable {
        kind: VariableKind,
        class: NameId,
        variable: NameId,
    },
}

/// Whether a name in code means something.
#[derive(Clone, Copy)]
pub(crate) struct Question {
    pub whose: Whose,
    pub what: Meant,
}

impl Meant {
    /// The name that means it.
    pub fn name(&self) -> NameId
        ensures { result ≡ asked.name_of self.now }
    {
        match self {
            Meant::Class(class) => *class,
            Meant::Variable { variable, .. } => *variable,
        }
    }
}
