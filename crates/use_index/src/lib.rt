//! An index of an image by kinds of uses: for each method and do-it what its code sends, implements, reads, assigns and declares,
//! with the paths of the nodes. What is asked of names is asked of it, and no body is opened for that; a change costs what it
//! touches.
#![tactic(auto)]

mod code;
mod found;
mod fresh;
mod index;
mod laws;
mod rows;
mod uses;

pub use code::{doit_uses, method_uses};
pub use found::{Found, Owner, identifier_uses, senders};
pub use index::{UseIndex, build};
pub use laws::law_rows;
pub use uses::{Sought, UseAt, Uses, Way};
