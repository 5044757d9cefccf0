//! What the runs of an image of Smalltalk-80 (Goldberg and Robson 1983) can reach, and the image without the rest.
#![tactic(auto)]

mod anew;
mod by_name;
mod closed;
mod code;
mod least;
mod marks;
mod stripped;

pub use closed::is_closed;
pub use least::reach;
pub use marks::Reach;
pub use stripped::strip;
