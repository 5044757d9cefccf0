//! Where the nodes of a method or a do-it stand in its text.
#![tactic(auto)]

mod places;

pub use event_spans::{NodeSpan, Spans};
pub use places::{doit_spans, lend_part, part_of_span, span_of, span_of_doit, spans};
pub use st_reading::{LexFault, ParseFault, Wanted, word_of};
