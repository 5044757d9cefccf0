//! What a pattern matches: the places of its metavariables in a node, the bindings, and the paths of its matches in code. Names
//! are numbers of one table.
#![tactic(auto)]

mod agreeing;
mod bindings;
mod laws;
mod matching;
mod metas;
mod searching;
mod standing;
mod walk;
mod words;

pub use agreeing::same_meta;
pub use bindings::{Bound, Held, copied, match_at};
pub use laws::law_numbers;
pub use matching::match_places;
pub use metas::put_metas;
pub use searching::all_matches;
pub use standing::{Part, Place, Standing};
pub use walk::list_meta;
