// Control sends.
ghost use Rattle.std.specs.Prelude.{◌≡◌, option_map};
ghost use Rattle.rb_base.specs.Names.{name_at};
ghost use Rattle.run_model.specs.Shapes.{runs, two_ways, plain_block, one_block, two_blocks, with_block, with_blocks, with_loop, shape_of};
ghost use Rattle.st_interp.specs.Trees.{tree_at, trees_at, sequence_at};
ghost use Rattle.st_interp.specs.Shapes.{branch_from, shape_from};

use crate::state::{Branch, Loop};
use rb_base::NameId;
use st_meaning::{SharedNames, same_text};
use st_tree::{Node, NodeKind, Sequence};

/// What a send is, by its selector, receiver and arguments.
#[derive(Clone, Copy, Drop)]
pub enum Shape<'p> {
    TwoWays { yes: Branch<'p>, no: Branch<'p> },
    Loops(Loop<'p>),
    Message,
}

/// The sequence of a literal block without parameters.
fn plain<'p>(names: &SharedNames, node: &'p Node) -> Option<&'p Sequence>
    ensures { option_map (λ b. sequence_at names.now b.now) result ≡ plain_block (tree_at names.now node.now) }
{
    match &node.kind {
        NodeKind::Block { parameters, body } => {
            if parameters.as_slice().is_empty() {
                Some(body)
            } else {
                None
            }
        }
        _ => None,
    }
}

/// The sequence of the one argument, where it is a literal block without parameters.
fn one<'p>(names: &SharedNames, arguments: &'p [Node]) -> Option<&'p Sequence>
    ensures { option_map (λ b. sequence_at names.now b.now) result ≡ one_block (trees_at names.now arguments.now) }
{
    let (first, rest) = arguments.split_first()?;
    match rest.split_first() {
        None => plain(names, first),
        Some(_) => None,
    }
}

/// The sequences of the two arguments, where they are literal blocks without parameters.
fn two<'p>(names: &SharedNames, arguments: &'p [Node]) -> Option<(&'p Sequence, &'p Sequence)>
    ensures { option_map (λ p. (sequence_at names.now p.0.now, sequence_at names.now p.1.now)) result ≡ two_blocks (trees_at names.now arguments.now) }
{
    let (first, rest) = arguments.split_first()?;
    let a = plain(names, first)?;
    let b = one(names, rest)?;
    Some((a, b))
}

/// The block for true, and what else.
fn yes_block<'p>(names: &SharedNames, arguments: &'p [Node], no: Branch<'p>) -> Shape<'p>
    ensures { shape_from names.now result ≡ with_block (trees_at names.now arguments.now) (λ a. two_ways (runs a) (branch_from names.now no.entry)) }
{
    match one(names, arguments) {
        Some(body) => Shape::TwoWays {
            yes: Branch::Runs(body),
            no,
        },
        None => Shape::Message,
    }
}

/// The block for false, and what else.
fn no_block<'p>(names: &SharedNames, arguments: &'p [Node], yes: Branch<'p>) -> Shape<'p>
    ensures { shape_from names.now result ≡ with_block (trees_at names.now arguments.now) (λ a. two_ways (branch_from names.now yes.entry) (runs a)) }
{
    match one(names, arguments) {
        Some(body) => Shape::TwoWays {
            yes,
            no: Branch::Runs(body),
        },
        None => Shape::Message,
    }
}

/// The block for true, and then that for false.
fn yes_and_no<'p>(names: &SharedNames, arguments: &'p [Node]) -> Shape<'p>
    ensures { shape_from names.now result ≡ with_blocks (trees_at names.now arguments.now) (λ a b. two_ways (runs a) (runs b)) }
{
    match two(names, arguments) {
        Some((a, b)) => Shape::TwoWays {
            yes: Branch::Runs(a),
            no: Branch::Runs(b),
        },
        None => Shape::Message,
    }
}

/// The block for false, and then that for true.
fn no_and_yes<'p>(names: &SharedNames, arguments: &'p [Node]) -> Shape<'p>
    ensures { shape_from names.now result ≡ with_blocks (trees_at names.now arguments.now) (λ a b. two_ways (runs b) (runs a)) }
{
    match two(names, arguments) {
        Some((a, b)) => Shape::TwoWays {
            yes: Branch::Runs(b),
            no: Branch::Runs(a),
        },
        None => Shape::Message,
    }
}

/// A loop, of two blocks.
fn looping<'p>(
    names: &SharedNames,
    receiver: &'p Node,
    arguments: &'p [Node],
    sense: bool,
) -> Shape<'p>
    ensures { shape_from names.now result ≡ with_loop (tree_at names.now receiver.now) (trees_at names.now arguments.now) sense }
{
    match plain(names, receiver) {
        Some(test) => match one(names, arguments) {
            Some(body) => Shape::Loops(Loop { sense, test, body }),
            None => Shape::Message,
        },
        None => Shape::Message,
    }
}

/// What a send is.
#[tactic(auto, unfolding(run_model::specs::Shapes::shape_of))]
pub(crate) fn shape_at<'p>(
    names: &SharedNames,
    selector: NameId,
    receiver: &'p Node,
    arguments: &'p [Node],
) -> Shape<'p>
    ensures { shape_from names.now result ≡ shape_of (name_at names.now selector) (tree_at names.now receiver.now) (trees_at names.now arguments.now) }
{
    let text = names.as_slice(selector);
    if same_text(text, b"ifTrue:") {
        yes_block(names, arguments, Branch::Nil)
    } else if same_text(text, b"ifFalse:") {
        no_block(names, arguments, Branch::Nil)
    } else if same_text(text, b"ifTrue:ifFalse:") {
        yes_and_no(names, arguments)
    } else if same_text(text, b"ifFalse:ifTrue:") {
        no_and_yes(names, arguments)
    } else if same_text(text, b"and:") {
        yes_block(names, arguments, Branch::False)
    } else if same_text(text, b"or:") {
        no_block(names, arguments, Branch::True)
    } else if same_text(text, b"whileTrue:") {
        looping(names, receiver, arguments, true)
    } else if same_text(text, b"whileFalse:") {
        looping(names, receiver, arguments, false)
    } else {
        Shape::Message
    }
}
