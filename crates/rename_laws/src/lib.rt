//! The laws of what renaming makes of an image: that its runs are those of the image before, with the new names. No program
//! text runs here.
#![tactic(auto)]

mod laws;
mod selectors;
mod variables;

pub use laws::law_renamed_class;
pub use selectors::law_renamed_selector;
pub use variables::law_renamed_variable_of;
