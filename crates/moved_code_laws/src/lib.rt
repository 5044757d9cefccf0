//! Laws of the commands that move code, from their conditions on: the image after matches the one before. No program text
//! runs here.
#![tactic(auto)]

mod laws;

pub use laws::{
    every_image_is_well_written, law_abstracted_images, law_abstracted_variable,
    law_accessor_names, law_extracted_images, law_inlined_images, law_message_inlined,
    law_part_extracted, law_variable_abstracted,
};
