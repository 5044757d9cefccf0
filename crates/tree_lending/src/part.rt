// The part of a method or a do-it where a path leads.
ghost use Rattle.std.specs.Prelude.{◌≡◌, ◌<◌, ◌∷◌, length, is_some};
ghost use Rattle.std.specs.Option.{option_copied_mut};
ghost use Rattle.std.specs.Borrow.{sem};
ghost use Rattle.tree_model.specs.Path.{part_in, replaced_in, method_replaced};
ghost use Rattle.st_tree.specs.View.{sequence_of, method_of};
ghost use Rattle.tree_lending.specs.Loans.{LendsPartOfDoit, LendsPartOfMethod};

use crate::step::{child_mut, statement_mut};
use crate::way::{Any, Way};
use st_tree::{Method, Node, Path, Sequence};

/// The part below the node of a statement: the last step is taken by itself, since it leads to a `Node` again.
fn inner_part_mut<'m>(body: &'m mut Sequence, first: usize, rest: &[usize]) -> Option<&'m mut Node>
    requires { 0 < length rest.now }
    ensures* writes_back { sem 𝓛 (LendsPartOfDoit body.entry (first ∷ rest.now) result) }
    ensures value { option_copied_mut result ≡ part_in (sequence_of body.old) (first ∷ rest.now) }
{
    let last = rest.len() - 1;
    let step = rest[last];
    let way = &rest[..last];
    child_mut(Any::lend(statement_mut(body, first)?, way)?, step)
}

/// The node of the do-it where the path leads, to be changed in place; None exactly where it leads to no node. The
/// do-it ends with what is left behind the result in place of that node, and everything else stays.
pub fn part_mut_doit<'m>(body: &'m mut Sequence, path: &Path) -> Option<&'m mut Node>
    ensures* writes_back { sem 𝓛 (LendsPartOfDoit body.entry path.now result) }
    ensures value { option_copied_mut result ≡ part_in (sequence_of body.old) path.now }
{
    let (first, rest) = path.as_slice().split_first()?;
    if rest.is_empty() {
        return statement_mut(body, *first);
    }
    inner_part_mut(body, *first, rest)
}

/// The node of the method where the path leads, to be changed in place; None exactly where it leads to no node. The
/// method ends with what is left behind the result in place of that node, and everything else stays.
pub fn part_mut<'m>(method: &'m mut Method, path: &Path) -> Option<&'m mut Node>
    ensures* writes_back { sem 𝓛 (LendsPartOfMethod method.entry path.now result) }
    ensures value { option_copied_mut result ≡ part_in (method_of method.old).body path.now }
{
    part_mut_doit(&mut method.body, path)
}

/// Puts the part where the path leads in the do-it, and drops what was there. Answers false exactly where the path
/// leads to no node; then the do-it stays as it is and the part is dropped.
pub fn put_at_doit(body: &mut Sequence, path: &Path, part: Node) -> bool
    ensures after { sequence_of body.new ≡ replaced_in (sequence_of body.old) path.now part }
    ensures found { result ≡ is_some (part_in (sequence_of body.old) path.now) }
{
    match part_mut_doit(body, path) {
        Some(node) => {
            *node = part;
            true
        }
        None => false,
    }
}

/// Puts the part where the path leads in the method, and drops what was there. Answers false exactly where the path
/// leads to no node; then the method stays as it is and the part is dropped.
pub fn put_at(method: &mut Method, path: &Path, part: Node) -> bool
    ensures after { method_of method.new ≡ method_replaced (method_of method.old) path.now part }
    ensures found { result ≡ is_some (part_in (method_of method.old).body path.now) }
{
    put_at_doit(&mut method.body, path, part)
}
