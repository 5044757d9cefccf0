//! The text of a change file, after any text of the first image, is read as the edits that it states, makes the second
//! image and names only what differs. No program text runs here.
#![tactic(auto)]

mod laws;

pub use laws::{
    counts_no_more_doits_than_bytes, goes_on_behind_a_text, law_changed_texts,
    makes_the_other_by_text, reads_edits, says_edits, spells_edits, states_all_edits,
    states_numbers,
};
