//! How many bodies of methods and do-its a command may open: look-ups in an image, how much they give for a command, how many
//! methods and do-its differ in two images, and the bounds that are made of these. Definitions and laws; no program text runs
//! here.
//!
//! The functions of this crate are laws on the definitions: they do nothing, and their contracts are the laws.
#![tactic(auto)]

mod laws;

pub use laws::{
    law_bounds_grow, law_conditions_together, law_listed, law_steps_add, law_uses_listed,
};
