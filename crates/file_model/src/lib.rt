//! What a file-out of Smalltalk-80 is the text of: the image that its chunks make one after the other, or the first chunk
//! that is refused; and the text of an image. After Krasner, "The Smalltalk-80 Code File Format", 1983.
//!
//! The functions of this crate are laws on the definitions: they do nothing.
#![tactic(auto)]

mod laws;

pub use laws::{has_one_image, judges_examples};
