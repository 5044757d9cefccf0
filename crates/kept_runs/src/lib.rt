//! What the laws of scripts ask of commands and lines, and what it means that a command keeps runs. Definitions over names that
//! are texts; no program text runs here.
#![tactic(auto)]
