//! The commands that are carried out, what a line of a script asks for, and the conditions by which commands are refused
//! (Roberts 1999).
#![tactic(auto)]

mod command;
mod condition;

pub use command::{
    Action, CodeMove, Command, MethodName, MethodPart, NewClass, NewMethod, NewParameter, Renaming,
    Request, VariableMove,
};
pub use condition::{Condition, NameKind, Spot};
