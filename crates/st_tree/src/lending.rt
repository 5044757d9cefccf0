// Items of the lists of a tree, to be changed in place.
ghost use Rattle.std.specs.Prelude.{◌≡◌, slice_get};
ghost use Rattle.std.specs.Option.{option_copied_mut};
ghost use Rattle.std.specs.Borrow.{sem};
ghost use Rattle.st_tree.specs.Lending.{LendsNode, LendsNodes, LendsMessage, LendsMessages, LendsStatement, LendsStatements};

use crate::tree::{Message, Messages, Node, Nodes, Statement, Statements};

impl Nodes {
    /// The node of a number, counted from 0, to be changed in place; None where there are not so many.
    pub fn get_mut(&mut self, at: usize) -> Option<&mut Node>
        ensures* writes_back { sem 𝓛 (LendsNode self.entry at result) }
        ensures value { option_copied_mut result ≡ slice_get self.old at }
    {
        self.items.get_mut(at)
    }

    /// The nodes, to be changed in place.
    pub fn as_mut_slice(&mut self) -> &mut [Node]
        ensures* writes_back { sem 𝓛 (LendsNodes self.entry result) }
        ensures value { result.now ≡ self.old }
    {
        self.items.as_mut_slice()
    }
}

impl Messages {
    /// The message of a number, counted from 0, to be changed in place; None where there are not so many.
    pub fn get_mut(&mut self, at: usize) -> Option<&mut Message>
        ensures* writes_back { sem 𝓛 (LendsMessage self.entry at result) }
        ensures value { option_copied_mut result ≡ slice_get self.old at }
    {
        self.items.get_mut(at)
    }

    /// The messages, to be changed in place.
    pub fn as_mut_slice(&mut self) -> &mut [Message]
        ensures* writes_back { sem 𝓛 (LendsMessages self.entry result) }
        ensures value { result.now ≡ self.old }
    {
        self.items.as_mut_slice()
    }
}

impl Statements {
    /// The statement of a number, counted from 0, to be changed in place; None where there are not so many.
    pub fn get_mut(&mut self, at: usize) -> Option<&mut Statement>
        ensures* writes_back { sem 𝓛 (LendsStatement self.entry at result) }
        ensures value { option_copied_mut result ≡ slice_get self.old at }
    {
        self.items.get_mut(at)
    }

    /// The statements, to be changed in place.
    pub fn as_mut_slice(&mut self) -> &mut [Statement]
        ensures* writes_back { sem 𝓛 (LendsStatements self.entry result) }
        ensures value { result.now ≡ self.old }
    {
        self.items.as_mut_slice()
    }
}
