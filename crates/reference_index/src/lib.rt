//! An index of an image: for each name the methods and do-its whose code mentions it. What is asked of an image can be asked
//! of the places that are listed, each of which is opened once, and a change costs what it touches.
#![tactic(auto)]

mod fresh;
mod index;
mod lists;
mod names;
mod rows;

pub use index::{Index, build};
