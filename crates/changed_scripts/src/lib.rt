//! What `changes` answers to a script in an image that was read: what is to be filed in after its text to have the image after
//! the commands of the script, or the first line or command that is refused.
#![tactic(auto)]

mod change;
mod laws;

pub use change::change_script;
