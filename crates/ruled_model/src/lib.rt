//! Scripts whose lines may also ask for rules with certificates: their single changes, and what becomes of them. Definitions; no
//! program text runs here.
#![tactic(auto)]
