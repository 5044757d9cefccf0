//! That the image after a script has a way back: the inverse maps of what its commands rename, one after the other, with which
//! it is matched by the image before. No program text runs here.
#![tactic(auto)]

mod laws;

pub use laws::law_scripts_back;
