//! Images of Smalltalk-80 (Goldberg and Robson 1983) as abstract data: classes, methods and do-its, chains of
//! superclasses, look-up of methods, what names mean, the uses of a thing, and their laws. No program text runs here.
#![tactic(auto)]

mod grown;
mod laws;

pub use grown::{
    Reading, law_class_added, law_doit_added, law_hierarchy, law_method_added, law_method_changed,
    law_nearest, law_super,
};
pub use laws::{
    law_chain_step, law_lookup_named, law_meaning_named, law_names_changed, law_nth_above,
    law_number_words, law_other_selector, law_replaced, law_replaced_valid,
};
