//! How words are spelled: identifiers and selectors of Smalltalk-80 (Goldberg and Robson 1983), and the keywords of selectors.
#![tactic(auto)]

mod spelling;

pub use spelling::{count_keywords, has_colon, is_identifier, is_selector};
