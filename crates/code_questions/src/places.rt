// Questions that are asked of places.
ghost use Rattle.std.specs.Prelude.{◌≡◌, ℕ, nat_eq, IfOk};
ghost use Rattle.std.specs.List.{list_any};
ghost use Rattle.image_model.specs.Image.{EntryOf};
ghost use Rattle.image_model.specs.Uses.{is_declarer};
ghost use Rattle.st_tree.specs.View.{method_of, sequence_of};
ghost use Rattle.class_table.specs.declared.record.Place.TheVariants as place;
ghost use Rattle.class_table.specs.Valid.{IsLive, IsOrderly};
ghost use Rattle.class_table.specs.View.{class_name, number_image};
ghost use Rattle.mentions.specs.Listing.{pointed};
ghost use Rattle.reference_index.specs.Mentioned.{IsIndexOf};
ghost use Rattle.code_questions.specs.Questions.{is_asked, are_doits_asked, in_head, in_temporaries, in_node, in_body, in_method, is_found};
ghost use Rattle.code_questions.specs.Places.{is_place_found};

use crate::question::{Question, Way, Whose};
use class_questions::{Sought, stands_above};
use class_table::{Image, MethodInfo, MethodSlot, Place};
use mentions::nodes_of;
use name_meanings::is_among;
use node_questions::{sends, uses};
use rb_base::{Memory, NameId, Steps};
use reference_index::Index;
use st_tree::{Method, Node, NodeKind, Sequence};
use std::alloc::Global;
use std::sync::ledger::Ledger;

/// Whether the node declares the name.
fn declares(node: &Node, name: NameId) -> bool
    ensures { result ≡ is_declarer nat_eq name node.now }
{
    match &node.kind {
        NodeKind::Block { parameters, body } => {
            is_among(parameters.as_slice(), name) || is_among(body.temporaries.as_slice(), name)
        }
        _ => false,
    }
}

/// Whether the node answers the question.
fn in_node(what: Way, name: NameId, node: &Node) -> bool
    ensures { result ≡ in_node what name node.now }
{
    match what {
        Way::Named => uses(node, name) || declares(node, name),
        Way::Used => uses(node, name),
        Way::Sent | Way::Spoken => sends(node, name),
        Way::Selector => false,
    }
}

/// Whether one of the nodes does.
fn in_nodes(what: Way, name: NameId, nodes: &[&Node]) -> bool
    ensures { result ≡ list_any (in_node what name) (pointed nodes.now) }
{
    for node in nodes {
        if in_node(what, name, *node) {
            return true;
        }
    }
    false
}

/// Whether the temporaries do.
fn in_temporaries(what: Way, name: NameId, temporaries: &[NameId]) -> bool
    ensures { result ≡ in_temporaries what name temporaries.now }
{
    match what {
        Way::Named => is_among(temporaries, name),
        _ => false,
    }
}

/// Whether the selector or the arguments of the method do.
fn in_head(what: Way, name: NameId, tree: &Method) -> bool
    ensures { result ≡ in_head what name (method_of tree.now) }
{
    match what {
        Way::Named => is_among(tree.arguments.as_slice(), name),
        Way::Selector | Way::Spoken => name == tree.selector,
        Way::Used | Way::Sent => false,
    }
}

/// Whether the sequence does.
fn in_body(alloc: Global, what: Way, name: NameId, body: &Sequence) -> Result<bool, Memory>
    ensures { IfOk result (λ is. is ≡ in_body what name (sequence_of body.now)) }
{
    if in_temporaries(what, name, body.temporaries.as_slice()) {
        return Ok(true);
    }
    let nodes = nodes_of(alloc, body)?;
    Ok(in_nodes(what, name, nodes.as_slice()))
}

/// Whether the method does.
fn in_method(alloc: Global, what: Way, name: NameId, tree: &Method) -> Result<bool, Memory>
    ensures { IfOk result (λ is. is ≡ in_method what name (method_of tree.now)) }
{
    if in_head(what, name, tree) {
        return Ok(true);
    }
    in_body(alloc, what, name, &tree.body)
}

/// Whether the method of which this is known is one of those that are asked.
fn is_asked(image: &Image, whose: Whose, info: &MethodInfo<'_>) -> bool
    requires orderly { IsOrderly image.now }
    requires live { IsLive image.now.class_order info.now.class }
    ensures { (m : EntryOf ℕ) → m.class ≡ class_name image.now.classes info.now.class → m.kernel ≡ info.now.kernel → result ≡ is_asked (number_image image.now) whose m }
{
    match whose {
        Whose::Everyone => true,
        Whose::Users => !info.kernel,
        Whose::Kernel => info.kernel,
        Whose::Below(class) => stands_above(image, info.class, &Sought::Class(class)),
    }
}

/// Whether do-its are asked.
fn are_doits_asked(whose: Whose) -> bool
    ensures { result ≡ are_doits_asked whose }
{
    match whose {
        Whose::Everyone | Whose::Users => true,
        Whose::Kernel | Whose::Below(_) => false,
    }
}

/// Whether the method in a slot, if it is live and one of those that are asked, answers the question.
fn is_slot_found<L: Ledger>(
    alloc: Global,
    image: &Image,
    question: &Question,
    slot: MethodSlot,
    steps: &mut Steps<L>,
) -> Result<bool, Memory>
    requires { IsOrderly image.now }
    ensures { IfOk result (λ is. is ≡ is_place_found image.now question.now (place.Method slot)) }
{
    let Some(info) = image.method_info(slot) else {
        return Ok(false);
    };
    if !is_asked(image, question.whose, &info) {
        return Ok(false);
    }
    match image.open_body(slot, steps) {
        None => Ok(false),
        Some(tree) => in_method(alloc, question.what, question.name, tree),
    }
}

/// Whether the do-it of a number, if there are so many and do-its are asked, answers the question.
fn is_number_found<L: Ledger>(
    alloc: Global,
    image: &Image,
    question: &Question,
    number: usize,
    steps: &mut Steps<L>,
) -> Result<bool, Memory>
    ensures { IfOk result (λ is. is ≡ is_place_found image.now question.now (place.DoIt number)) }
{
    if !are_doits_asked(question.whose) {
        return Ok(false);
    }
    match image.open_doit(number, steps) {
        None => Ok(false),
        Some(body) => in_body(alloc, question.what, question.name, body),
    }
}

/// Whether the code at a place does.
fn is_place_found<L: Ledger>(
    alloc: Global,
    image: &Image,
    question: &Question,
    place: Place,
    steps: &mut Steps<L>,
) -> Result<bool, Memory>
    requires { IsOrderly image.now }
    ensures { IfOk result (λ is. is ≡ is_place_found image.now question.now place) }
{
    match place {
        Place::Method(slot) => is_slot_found(alloc, image, question, slot, steps),
        Place::DoIt(number) => is_number_found(alloc, image, question, number, steps),
    }
}

/// Whether the code at one of the places does.
fn is_found_at<L: Ledger>(
    alloc: Global,
    image: &Image,
    question: &Question,
    places: &[Place],
    steps: &mut Steps<L>,
) -> Result<bool, Memory>
    requires { IsOrderly image.now }
    ensures { IfOk result (λ is. is ≡ list_any (is_place_found image.now question.now) places.now) }
{
    for place in places {
        if is_place_found(alloc, image, question, *place, steps)? {
            return Ok(true);
        }
    }
    Ok(false)
}

/// Whether a method or a do-it of the image is one of those that are asked and has the name in that way. Opens only code
/// that mentions the name.
pub fn is_found<L: Ledger>(
    alloc: Global,
    image: &Image,
    index: &Index,
    question: &Question,
    steps: &mut Steps<L>,
) -> Result<bool, Memory>
    requires orderly { IsOrderly image.now }
    requires index { IsIndexOf image.now index.now }
    ensures { IfOk result (λ is. is ≡ is_found (number_image image.now) question.now) }
{
    is_found_at(alloc, image, question, index.listed(question.name), steps)
}
