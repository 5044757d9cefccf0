//! What is asked of an image, and the lines that answer: who sends or implements a selector, and which nodes mean a class or
//! a variable, with their places in the sources. Definitions and a law; no program text runs here.
#![tactic(auto)]

mod laws;

pub use laws::has_one_answer;
