//! Images whose sources are canonical: the source of each method and each do-it of the user is the canonical text of its tree.
#![tactic(auto)]

mod format;

pub use format::format_image;
