//! The image of a file-out of Smalltalk-80 as it is while the file-out is read. Names are numbers of a table beside it.
#![tactic(auto)]

mod arrange;
mod boxed_class;
mod change;
mod changes;
mod class_draft;
mod class_list;
mod classes;
mod define;
mod draft;
mod found;
mod fronts;
mod hierarchy;
mod kept;
mod method_draft;
mod method_slots;
mod methods;
mod name_set;
mod order;
mod owners;
mod place_table;
mod refusals;
mod reorder;
mod standing;

pub use arrange::arranged;
pub use change::{Change, Run};
pub use class_draft::{ClassDraft, Definition};
pub use draft::{Draft, DraftParts};
pub use method_draft::MethodDraft;
