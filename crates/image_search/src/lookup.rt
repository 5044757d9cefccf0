// The lines of the nodes where paths lead.
ghost use Rattle.std.specs.Prelude.{◌≡◌, ◌<◌, length, slice_get, option_map, IfOk, IfSome};
ghost use Rattle.event_spans.specs.declared.search.NodeSpan.{NodeSpan};
ghost use Rattle.image_search.specs.Parts.{StandsAmong, AreNodeLines};

use event_spans::NodeSpan;
use image_queries::write_line;
use rb_base::{Memory, Text};
use st_tree::Path;
use std::alloc::Global;

/// The number of the first node with the path, of the nodes from a number on.
fn next_node(nodes: &[NodeSpan], from: usize, path: &Path) -> Option<usize>
    ensures within { IfSome result (λ k. k < length nodes.now) }
    ensures path { IfSome result (λ k. option_map (λ (e : NodeSpan). e.path) (slice_get nodes.now k) ≡ Some path.now) }
{
    for k in from..nodes.len() {
        if nodes[k].path.same(path) {
            return Some(k);
        }
    }
    None
}

/// The number of a node with the path. It is looked for from a number on, and where it does not stand there among all.
fn node_with_path(nodes: &[NodeSpan], from: usize, path: &Path) -> Option<usize>
    ensures within { IfSome result (λ k. k < length nodes.now) }
    ensures path { IfSome result (λ k. option_map (λ (e : NodeSpan). e.path) (slice_get nodes.now k) ≡ Some path.now) }
{
    match next_node(nodes, from, path) {
        Some(number) => Some(number),
        None => next_node(nodes, 0, path),
    }
}

/// The lines of the nodes where the paths lead, in the order of the paths. Paths in the order of the nodes are found in one
/// pass over them. Want of memory also where a path leads to none of the nodes, which no match in the tree that the source
/// spells does.
pub(crate) fn path_lines(
    alloc: Global,
    owner: &[u8],
    nodes: &[NodeSpan],
    paths: &[Path],
) -> Result<Text, Memory>
    ensures { IfOk result (λ text. AreNodeLines owner.now (StandsAmong nodes.now) paths.now text) }
{
    let mut text = Text::new(alloc);
    let mut at = 0;
    for path in paths {
        let Some(found) = node_with_path(nodes, at, path) else {
            return Err(Memory);
        };
        write_line(alloc, owner, nodes[found].span, &mut text)?;
        at = found;
    }
    Ok(text)
}
