// Questions on the code of an image.

use rb_base::NameId;

/// Whose code is asked.
#[derive(Clone, Copy, Debug)]
pub enum Whose {
    /// All methods and do-its.
    Everyone,
    /// The methods of users, and do-its.
    Users,
    /// The methods of the kernel.
    Kernel,
    /// The methods of the class of a name and of classes below it.
    Below(NameId),
}

/// In which way a name is there.
#[derive(Clone, Copy, Debug)]
pub enum Way {
    /// It is read, assigned or declared.
    Named,
    /// It is read or assigned.
    Used,
    /// It is sent.
    Sent,
    /// It is the selector of the method.
    Selector,
    /// It is sent, or is the selector of the method.
    Spoken,
}

/// Whether code has a name.
#[derive(Clone, Copy, Debug)]
pub struct Question {
    pub whose: Whose,
    pub what: Way,
    pub name: NameId,
}
