//! What a command that moves no code makes of a valid image is valid again, and can be written where that image can,
//! if the text of a method that it adds spells it and may stand as a chunk. No program text runs here.
#![tactic(auto)]

mod laws;

pub use laws::law_effect_valid;
