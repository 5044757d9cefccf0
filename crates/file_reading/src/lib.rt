//! The reader of file-outs of Smalltalk-80 (Krasner, "The Smalltalk-80 Code File Format", 1983): each chunk is taken behind
//! those before it, and the draft of an image that comes of it is made an image.
#![tactic(auto)]

mod doits;
mod faults;
mod image;
mod read;
mod reading;
mod replace;
mod said;
mod take;
mod words;

pub use image::read_image;
pub use read::read_draft;
pub use reading::Reading;
