//! What is in the way of the conditions of parts, of messages that become bodies of methods, and of temporaries: the nodes of a
//! part that keep it where it is, what is evaluated before it, names that mean another thing at another place, and what keeps
//! the body of a method from standing in place of a message.
#![tactic(auto)]

mod actuals;
mod captured;
mod declarations;
mod first;
mod held;
mod inlinable;
mod lets;
mod parts;
mod push;
mod sending;
mod sought;
mod temporaries;

pub use parts::part_witnesses;
pub use sending::{receiver_witness, target_witnesses};
pub use temporaries::temporary_witnesses;
