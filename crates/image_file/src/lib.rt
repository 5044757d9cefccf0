//! File-outs of Smalltalk-80 (Goldberg and Robson 1983; Krasner, "The Smalltalk-80 Code File Format", 1983): an image is
//! written as one.
#![tactic(auto)]

mod class_texts;
mod file_text;
mod laws;
mod method_texts;
mod strings;

pub use class_texts::{class_side_source, comment_source, definition_source};
pub use file_text::{append, write_image};
pub use laws::writes_orderly_images;
pub use method_texts::{UserMethod, run_source, user_method, write_side};
pub use strings::{write_ended_chunk, write_paragraph, write_string};
