//! Integers of 64 bits as the programs of a run see them (Goldberg and Robson 1983): sums, products, quotients that are
//! rounded down, shifts. `None` is the answer where a result is none of 64 bits.
#![tactic(auto)]

mod arithmetic;
mod division;
mod shift;

pub use arithmetic::{difference, fitted, product, sum};
pub use division::{floor_quotient, floor_remainder};
pub use shift::shifted;
