//! What `team` answers to a log in an image that was read: a line for each event, and the file of the image at the end; or the
//! first line of the log that is wrong.
#![tactic(auto)]

mod events;
mod lines;
mod play;

pub use play::play_log;
