// From a node down along a path, lent. The checker writes no proof for a recursion that hands on a loan, nor for a
// loop that moves one down. So the path is taken in halves: a type that lends along paths of some length gives one that
// lends along paths twice as long, and no function calls itself.
ghost use Rattle.std.specs.Prelude.{◌≡◌, ◌<◌, ◌*◌, ℕ, length, option_map};
ghost use Rattle.std.specs.Borrow.{sem};
ghost use Rattle.tree_model.specs.Path.{part_at};
ghost use Rattle.st_tree.specs.View.{tree_of};
ghost use Rattle.tree_lending.specs.Loans.{LendsPart};

use crate::step::{child_mut, kind_mut};
use st_tree::{Node, NodeKind};
use std::marker::PhantomData;

/// Lends along paths up to some length.
pub(crate) trait Way {
    /// The paths have fewer steps than this.
    ghost reach: { ℕ };

    /// Lends what the node is where the path leads; None where it leads to no node.
    fn lend<'m>(node: &'m mut Node, path: &[usize]) -> Option<&'m mut NodeKind>
        requires { length path.now < reach }
        ensures* writes_back { sem 𝓛 (LendsPart node.entry path.now result) }
        ensures value { option_map (λ k. tree_of k.now) result ≡ part_at node.old path.now };
}

/// Lends along the empty path.
pub(crate) struct Here;

impl Way for Here {
    ghost reach = { 1 };

    fn lend<'m>(node: &'m mut Node, path: &[usize]) -> Option<&'m mut NodeKind> {
        kind_mut(node)
    }
}

/// Lends along paths twice as long as `W` does: by `W`, then a step, then by `W` again.
pub(crate) struct Twice<W> {
    way: PhantomData<W>,
}

impl<W: Way> Way for Twice<W> {
    ghost reach = { 2 * W.reach };

    fn lend<'m>(node: &'m mut Node, path: &[usize]) -> Option<&'m mut NodeKind> {
        if path.is_empty() {
            return kind_mut(node);
        }
        let half = path.len() / 2;
        let step = path[half];
        let before = &path[..half];
        let after = &path[half + 1..];
        W::lend(child_mut(W::lend(node, before)?, step)?, after)
    }
}

/// Lends along paths 256 times as long as `W` does.
pub(crate) struct Far<W> {
    way: PhantomData<W>,
}

impl<W: Way> Way for Far<W> {
    ghost reach = { 256 * W.reach };

    fn lend<'m>(node: &'m mut Node, path: &[usize]) -> Option<&'m mut NodeKind> {
        Twice::<Twice<Twice<Twice<Twice<Twice<Twice<Twice<W>>>>>>>>::lend(node, path)
    }
}

/// Lends along every path, since none has 2^64 steps.
pub(crate) type Any = Far<Far<Far<Far<Far<Far<Far<Far<Here>>>>>>>>;
