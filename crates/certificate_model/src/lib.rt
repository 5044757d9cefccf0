//! The texts of certificates: the steps that they say, or the first byte that continues none. Definitions over texts; no program
//! text runs here.
//!
//! The functions of this crate are laws on the definitions: they do nothing.
#![tactic(auto)]

mod laws;

pub use laws::has_one_certificate;
