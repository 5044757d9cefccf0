// The events of a log.

use proposals::Proposal;

/// What a session does.
#[derive(Drop)]
pub enum Act {
    Begin,
    /// It proposes what its line asks for, over the names that were known at its line.
    Propose(Proposal),
    Commit,
    Undo,
    Redo,
}

/// What a session of this number does, from 1 to 64.
#[derive(Drop)]
pub struct Event {
    pub session: u8,
    pub act: Act,
}
