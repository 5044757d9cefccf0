//! A test of what a session tells of the names that its commands change: no form of the program asks for that. The crate has
//! nothing else.
#![tactic(auto)]

#[cfg(test)]
mod renamed;
