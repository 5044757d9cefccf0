//! Temporaries that stand in place of an expression, and temporaries in whose place an expression stands.
#![tactic(auto)]

mod assignment;
mod changing;
mod extracting;
mod inlining;
mod uses;

pub use assignment::{Let, let_of};
pub use changing::{Changing, change_sequence};
pub use extracting::temporary_extracted;
pub use inlining::temporary_inlined;
pub use uses::reads_of;
