//! Why a file-out of Smalltalk-80 is refused, and where in it; and in specs/ what it is that an image was read from a
//! file-out.
#![tactic(auto)]

mod fault;
mod place;

pub use fault::{ImageCause, ImageFault};
pub use place::{no_end, refused};
