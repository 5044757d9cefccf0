//! From a method that sets a temporary once, and the method in which what it was set to stands where it was read, to images
//! that unfold to each other: a tool for the laws of `extractTemp` and `inlineTemp`. No program text runs here.
#![tactic(auto)]

mod laws;

pub use laws::{
    law_extracted_files, law_extracted_images, law_extracted_temporary, law_inlined_temporary,
    law_inlined_temporary_files, law_inlined_temporary_images, law_let_once,
};
