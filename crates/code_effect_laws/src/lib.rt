//! What each command makes of a valid image is valid again, and can be written where that image can, also where the command
//! moves code, if the text of a method that it adds spells it and may stand as a chunk, and a setter that it makes has the
//! names that belong to its variable; and so it is with each script. No program text runs here.
#![tactic(auto)]

mod laws;

pub use laws::{law_code_effect_valid, law_script_images, law_script_texts};
