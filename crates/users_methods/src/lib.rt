//! The methods of the user that commands name, and the slots that hold them.
#![tactic(auto)]

mod methods;
mod slots;

pub use methods::{UsersMethod, users_method};
pub use slots::{is_listed, named_slots, users_slots};
