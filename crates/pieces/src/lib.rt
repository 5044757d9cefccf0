//! Output in pieces, over any output whose puts may be told.
#![tactic(auto)]

mod put_sink;
mod sending;

pub use put_sink::PutSink;
pub use sending::send;
