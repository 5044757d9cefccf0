//! The forms of the command line that read an image or no file, and what each form takes to load an image and to refuse one.
#![tactic(auto)]

mod finding;
mod fixed_lines;
mod formatting;
mod image_lines;
mod importing;
mod loading;
mod query;
mod rewriting;
mod searching;
mod status;
mod stripping;

pub use finding::find;
pub use fixed_lines::{help, usage, version};
pub use formatting::format;
pub use image_lines::{push_expression_refusal, push_image_refusal, push_number};
pub use importing::import;
pub use loading::{IMAGE_LIMIT, load, push_line};
pub use rewriting::rewrite;
pub use searching::search;
pub use status::Status;
pub use stripping::strip;
