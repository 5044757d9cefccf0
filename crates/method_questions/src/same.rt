// Whether two methods are the same.
ghost use Rattle.std.specs.Prelude.{◌≡◌, ◌||◌, not, nat_eq, IfOk};
ghost use Rattle.std.specs.Cmp.Lexicographic.{pointwise};
ghost use Rattle.same_trees.specs.SameTrees.{same_tree, same_statements, same_code};
ghost use Rattle.st_tree.specs.View.{method_of, statements_of};
ghost use Rattle.image_model.specs.Words.{number_words};
ghost use Rattle.class_table.specs.Valid.{IsLive, IsOrderly};
ghost use Rattle.class_table.specs.View.{number_image};
ghost use Rattle.command_model.specs.SameMethods as model;
ghost use Rattle.commands.specs.Views.{asked_by};
ghost use Rattle.method_questions.specs.Found.{as_entry};

use crate::found::Found;
use crate::meanings::means_same;
use crate::supers::{Sought, stands_in};
use class_table::Image;
use rb_base::{Ids, Memory};
use st_tree::{Method, Node, Statement, same};
use std::alloc::Global;

/// Whether both are the same names in the same order.
fn same_names(names: &Ids, others: &Ids) -> bool
    ensures { result ≡ pointwise nat_eq names.now others.now }
{
    names.same(others)
}

/// Whether the nodes are the same but for comments.
fn same_node(node: &Node, other: &Node) -> bool
    ensures { result ≡ same_tree nat_eq node.now other.now }
{
    same(node, other)
}

/// Whether the statements are the same but for comments.
fn same_statements(statements: &[Statement], others: &[Statement]) -> bool
    ensures { result ≡ same_statements nat_eq (statements_of statements.now) (statements_of others.now) }
{
    let mut rest = others;
    for statement in statements {
        let Some((other, more)) = rest.split_first() else {
            return false;
        };
        if !same_node(&statement.node, &other.node) {
            return false;
        }
        rest = more;
    }
    rest.is_empty()
}

/// Whether the methods are the same but for comments, with their primitives.
fn same_code(method: &Method, other: &Method) -> bool
    ensures { result ≡ same_code nat_eq (method_of method.now) (method_of other.now) }
{
    method.selector == other.selector
        && (same_names(&method.arguments, &other.arguments)
            && (method.primitive == other.primitive
                && (same_names(&method.body.temporaries, &other.body.temporaries)
                    && same_statements(
                        method.body.statements.as_slice(),
                        other.body.statements.as_slice(),
                    ))))
}

/// Whether both methods are of one class and side.
#[tactic(auto, using(crate::proofs::Classes::same_classes))]
fn are_of_one_side(image: &Image, method: &Found<'_>, other: &Found<'_>) -> bool
    requires orderly { IsOrderly image.now }
    requires live { IsLive image.now.class_order method.now.class }
    requires other_live { IsLive image.now.class_order other.now.class }
    ensures { result ≡ model.are_of_one_side nat_eq (as_entry image.now.classes method.now) (as_entry image.now.classes other.now) }
{
    method.class == other.class && method.meta == other.meta
}

/// Whether `super` stands in neither method, or both are of one class and side.
fn super_agrees(
    alloc: Global,
    image: &Image,
    method: &Found<'_>,
    other: &Found<'_>,
) -> Result<bool, Memory>
    requires orderly { IsOrderly image.now }
    requires live { IsLive image.now.class_order method.now.class }
    requires other_live { IsLive image.now.class_order other.now.class }
    ensures { IfOk result (λ is. is ≡ (not (model.has_super (asked_by image.now.names).is_super (as_entry image.now.classes method.now) || model.has_super (asked_by image.now.names).is_super (as_entry image.now.classes other.now)) || model.are_of_one_side nat_eq (as_entry image.now.classes method.now) (as_entry image.now.classes other.now))) }
{
    if are_of_one_side(image, method, other) {
        return Ok(true);
    }
    let here = stands_in(alloc, image.names(), method.tree, &Sought::Super)?;
    let there = stands_in(alloc, image.names(), other.tree, &Sought::Super)?;
    Ok(!(here || there))
}

/// Whether the methods are the same: they have the same code but for comments, `super` stands in neither of them or both are
/// of one class and side, and each name means the same in both.
pub(crate) fn is_same_method(
    alloc: Global,
    image: &Image,
    method: &Found<'_>,
    other: &Found<'_>,
) -> Result<bool, Memory>
    requires orderly { IsOrderly image.now }
    requires live { IsLive image.now.class_order method.now.class }
    requires other_live { IsLive image.now.class_order other.now.class }
    ensures { IfOk result (λ is. is ≡ model.is_same_method (number_words image.now.names) (asked_by image.now.names).is_super (number_image image.now) (number_image image.now) (as_entry image.now.classes method.now) (as_entry image.now.classes other.now)) }
{
    if !same_code(method.tree, other.tree) {
        return Ok(false);
    }
    if !super_agrees(alloc, image, method, other)? {
        return Ok(false);
    }
    means_same(alloc, image, method, other)
}
