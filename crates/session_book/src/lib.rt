//! An image and its session as a book that sessions of a team share: a group of actions is one entry of the history, and undo
//! and redo move in it.
#![tactic(auto)]

mod book;

pub use book::SessionBook;
