//! The laws of what adding and removing a parameter of a selector makes of an image: that the image after matches the one
//! before. No program text runs here.
#![tactic(auto)]

mod laws;

pub use laws::{
    law_added_parameter, law_appended_argument, law_dropped_argument, law_extra_argument,
    law_removed_parameter,
};
