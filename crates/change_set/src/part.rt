// A node inside the code of an image, swapped with another.
ghost use Rattle.std.specs.Prelude.{◌≡◌, ◌<◌, true, is_some, Some, unwrap_or};
ghost use Rattle.class_table.specs.declared.record.Place.TheVariants as places;
ghost use Rattle.change_set.specs.Code.{node_of, with_node, node_in, with_part};

use class_table::{Image, MethodSlot, Place};
use rb_base::Steps;
use st_tree::{Node, Path, Sequence};
use std::marker::Brand;
use std::sync::ledger::{Blank, Ledger};
use tree_lending::part_mut_doit;

/// Swaps the node where the path leads with another; where it leads nowhere, both stay.
fn swap_node(body: &mut Sequence, path: &Path, part: &mut Node)
    ensures body { body.new ≡ with_node path.now part.old body.old }
    ensures node { part.new ≡ unwrap_or (node_of path.now body.old) part.old }
{
    if let Some(node) = part_mut_doit(body, path) {
        std::mem::swap(node, part);
    }
}

fn swap_in_method<L: Ledger>(
    image: &mut Image,
    slot: MethodSlot,
    path: &Path,
    part: &mut Node,
    steps: &mut Steps<L>,
)
    requires { is_some (node_in image.old (places.Method slot) path.now) ≡ true }
    ensures image { image.new ≡ with_part image.old (places.Method slot) path.now part.old }
    ensures node { node_in image.old (places.Method slot) path.now ≡ Some part.new }
{
    if let Some(method) = image.open_body_mut(slot, steps) {
        swap_node(&mut method.body, path, part);
    }
}

fn swap_in_doit<L: Ledger>(
    image: &mut Image,
    number: usize,
    path: &Path,
    part: &mut Node,
    steps: &mut Steps<L>,
)
    requires { is_some (node_in image.old (places.DoIt number) path.now) ≡ true }
    ensures image { image.new ≡ with_part image.old (places.DoIt number) path.now part.old }
    ensures node { node_in image.old (places.DoIt number) path.now ≡ Some part.new }
{
    if let Some(body) = image.open_doit_mut(number, steps) {
        swap_node(body, path, part);
    }
}

fn swap_counted<L: Ledger>(
    image: &mut Image,
    place: Place,
    path: &Path,
    part: &mut Node,
    blank: Blank,
)
    requires there { is_some (node_in image.old place path.now) ≡ true }
    requires name { blank.name ≡ L.name }
    requires parts { blank.parts ≡ L.parts }
    requires some { 0 < L.parts }
    ensures image { image.new ≡ with_part image.old place path.now part.old }
    ensures node { node_in image.old place path.now ≡ Some part.new }
{
    let mut steps = Steps::<L>::new(blank);
    match place {
        Place::Method(slot) => swap_in_method(image, slot, path, part, &mut steps),
        Place::DoIt(number) => swap_in_doit(image, number, path, part, &mut steps),
    }
}

/// Swaps the node where a path into the body of a live method or a do-it leads with another.
pub(crate) fn swap_part(image: &mut Image, place: Place, path: &Path, part: &mut Node)
    requires { is_some (node_in image.old place path.now) ≡ true }
    ensures image { image.new ≡ with_part image.old place path.now part.old }
    ensures node { node_in image.old place path.now ≡ Some part.new }
{
    swap_counted::<Brand>(image, place, path, part, Blank::new(1))
}
