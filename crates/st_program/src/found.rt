// Methods that are found.

use st_meaning::SharedText;
use st_tree::Method;

/// A method that a message runs.
#[derive(Drop)]
pub struct Found<'p> {
    /// The name of the method's class.
    pub class: Option<SharedText>,
    /// Whether it is a method of the class side.
    pub meta: bool,
    pub tree: &'p Method,
}
