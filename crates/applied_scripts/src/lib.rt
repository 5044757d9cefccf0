//! What `apply` answers to a script in an image that was read: the file of the image after its commands, or the first line or
//! command that is refused.
#![tactic(auto)]

mod apply;
mod lines;

pub use apply::{Changed, apply_script, change_image};
pub use lines::{Stop, perform_all, push_stop, script_lines};
