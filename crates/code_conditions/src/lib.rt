//! Which conditions hold that only commands have which move code.
#![tactic(auto)]

mod abstracted;
mod heights;
mod lets;
mod parts;
mod sent;
mod targets;
mod trees;
mod words;

pub use abstracted::is_place_high;
pub use heights::is_shallow_after;
pub use lets::let_holds;
pub use parts::part_holds;
pub use sent::{code_of, sent_of};
pub use targets::{is_one_target, is_self_send, target_holds};
pub use trees::{with_body, with_temporary, with_value};
pub use words::self_name;
