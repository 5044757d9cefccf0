// Whole statements of a method.
ghost use Rattle.std.specs.Prelude.{◌≡◌, take, IfOk};
ghost use Rattle.st_tree.specs.View.{method_of};
ghost use Rattle.command_model.specs.Places as model;

use part_questions::innermost;
use rb_base::Memory;
use st_tree::{Method, Path};
use std::alloc::Global;

/// The number of the statement to which the path leads, where it leads to a whole one.
pub fn whole_statement(method: &Method, path: &Path) -> Option<usize>
    ensures { result ≡ model.whole_statement (method_of method.now) path.now }
{
    let (last, before) = path.as_slice().split_last()?;
    if before.len() == innermost(method, path) {
        Some(*last)
    } else {
        None
    }
}

/// The path of the sequence of the innermost statement round the place at the end of the path. Want of memory, if there is not
/// enough of it for that path.
pub fn sequence_round(alloc: Global, method: &Method, path: &Path) -> Result<Path, Memory>
    ensures { IfOk result (λ round. round ≡ model.sequence_round (method_of method.now) path.now) }
{
    let steps = path.as_slice();
    let count = innermost(method, path).min(steps.len());
    Ok(Path::from_vec(Vec::from_slice(alloc, &steps[..count])?))
}
