//! What a primitive of Smalltalk-80 (Goldberg and Robson 1983) is given and what it answers, and which values are of
//! which kind.
#![tactic(auto)]

mod call;
mod kinds;
mod outcome;
mod reply;

pub use call::Call;
pub use kinds::{
    Items, array_number, byte_of, bytes_of, class_of, closure_number, integer_of, is_transcript,
    items_of, string_of, symbol_of,
};
pub use outcome::{PrimResult, perform};
pub use reply::{Change, Reply};
