//! What commands ask of the classes next to a class, of the methods that a class itself has, and of the classes and methods
//! into which a variable comes that goes up.
#![tactic(auto)]

mod arrival;
mod children;
mod classes;
mod methods;

pub use arrival::{Arrival, may_come_up};
pub use children::{losers, receivers};
pub use classes::{
    has_no_subclasses, has_user_parent, is_user_child, lacks_variable, superclass_of,
};
pub use methods::{implements, lacks_method, own_method};
