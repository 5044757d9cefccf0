//! The image of a file-out of Smalltalk-80 as it is while the file-out is read, with the places that a file of changes states
//! for classes and methods. Between chunks its classes may stand in another order than behind their superclasses.
#![tactic(auto)]

mod change;
mod order;
mod placed_draft;
mod places;
mod settle;

pub use placed_draft::PlacedDraft;
