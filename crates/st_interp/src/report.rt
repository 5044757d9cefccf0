// What is told of a run.

use st_meaning::{Event, Outcome};

/// What is seen of a run.
#[derive(Drop)]
pub struct RunReport {
    /// The events in the order in which they were told.
    pub events: Vec<Event>,
    /// How the run came out.
    pub outcome: Outcome,
    /// How many ticks were taken, from 0 to the budget.
    pub ticks: u32,
}
