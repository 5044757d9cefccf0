//! The orders of the classes and the methods of a draft: classes that are settled from any order, and classes and methods
//! that are put in again at the places that are stated for them.
#![tactic(auto)]

mod chains;
mod classes;
mod gap;
mod lists;
mod methods;
mod parts;
mod places;
mod ready;
mod settling;
mod sort;

pub use classes::put_classes_again;
pub use methods::put_methods_again;
pub use places::{ClassPlace, MethodPlace};
pub use settling::settle;
