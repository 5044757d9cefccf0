//! Tests of the calls that stand in no case of the program: that they succeed where there is memory, and what they answer. The
//! crate has nothing else.
#![tactic(auto)]

#[cfg(test)]
mod chunks;
#[cfg(test)]
mod classes;
#[cfg(test)]
mod differences;
#[cfg(test)]
mod outside;
#[cfg(test)]
mod parts;
#[cfg(test)]
mod patterns;
#[cfg(test)]
mod places;
#[cfg(test)]
mod reaching;
#[cfg(test)]
mod rooms;
#[cfg(test)]
mod scopes;
