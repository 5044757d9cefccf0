//! What a chunk of a Smalltalk-80 file-out says (Goldberg and Robson 1983; Krasner, "The Smalltalk-80 Code File Format",
//! 1983): it defines, comments or removes a class, removes a method, opens a run of methods, states or settles places, has
//! a do-it replaced, or is a do-it. It is judged by the tree that it spells.
#![tactic(auto)]

mod arguments;
mod definitions;
mod form;
mod messages;
mod numerals;
mod replacements;
mod sent;
mod words;

pub use arguments::{FirstText, one_argument, string_first, symbol_first};
pub use form::{ChunkForm, ClassDefinition};
pub use messages::chunk_form;
pub use numerals::place_in;
pub use replacements::{Replacement, replacement_in};
pub use sent::{Argument, Sent, sent_in, text_of};
pub use words::{is_blank_string, may_name, may_name_all, same_text, word_len};
