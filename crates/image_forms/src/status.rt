// How a call of the program ends.
ghost use Rattle.std.specs.Prelude.{◌≡◌};
ghost use Rattle.image_forms.specs.Statuses.{number_of};

/// How a call ended. Its number is the status with which the process ends.
#[derive(Clone, Copy, Debug, PartialEq, Eq)]
pub enum Status {
    /// 0: the output of the form of the words was sent.
    Done,
    /// 1: a command was refused, since a condition of it is false; the line names the first one.
    Condition,
    /// 2: the words are in no form.
    Usage,
    /// 3: a chunk of the image or of the file-out to import is refused; the line names the first one and the cause.
    ImageText,
    /// 4: the expression of a run is no do-it; the line names the place of its first fault and the fault.
    ScriptText,
    /// 5: a file could not be read, or there is none of that name.
    Read,
    /// 6: the output failed. What was sent is a prefix of the answer.
    Write,
    /// 7: memory was wanting. Nothing was sent, or a prefix where the output wanted it.
    Memory,
    /// 8: a file is longer than its limit.
    TooLarge,
    /// 9: a run ended in an error; the last line names it.
    RunError,
    /// 10: a run wanted a tick when none was left; the last line says how many it had.
    Spent,
}

impl Status {
    /// The number with which the process ends.
    pub fn number(&self) -> u8
        ensures { result ≡ number_of self.now }
    {
        match self {
            Status::Done => 0,
            Status::Condition => 1,
            Status::Usage => 2,
            Status::ImageText => 3,
            Status::ScriptText => 4,
            Status::Read => 5,
            Status::Write => 6,
            Status::Memory => 7,
            Status::TooLarge => 8,
            Status::RunError => 9,
            Status::Spent => 10,
        }
    }
}
