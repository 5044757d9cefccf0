// Methods while a file-out is read.
use rb_base::{NameId, Text};
use st_tree::Method;

/// A method.
#[derive(Drop)]
pub struct MethodDraft {
    pub class: NameId,
    /// Whether it is a method of the class side.
    pub meta: bool,
    pub protocol: Text,
    /// The text that spells the tree.
    pub source: Text,
    pub tree: Method,
    /// Whether it is one of the kernel.
    pub kernel: bool,
}
