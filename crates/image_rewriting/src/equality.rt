// Whether two bodies are equal, their comments too.
ghost use Rattle.std.specs.Prelude.{◌≡◌, ◌++◌, ◌↔◌, IsTrue, IfOk, OnOk};
ghost use Rattle.std.specs.List.{flat_map};
ghost use Rattle.tree_model.specs.Bare.{bare_statements};
ghost use Rattle.st_tree.specs.View.{statements_of, sequence_of};
ghost use Rattle.mentions.specs.Listing.{pointed};
ghost use Rattle.rewrite_model.specs.Notes.{statement_notes, block_notes, all_notes};
ghost use Rattle.image_rewriting.specs.Equal.{noted, AreEqual};

use mentions::nodes_of;
use rb_base::{Memory, Text};
use st_tree::{Comments, Node, NodeKind, Sequence, Statement, same};
use std::alloc::Global;

/// The comments of statements, and those at their end, go to the end of the others.
fn put_notes<'b>(
    statements: &'b [Statement],
    tail: &'b Comments,
    found: &mut Vec<&'b Comments>,
) -> Result<(), Memory>
    ensures { OnOk result (noted found.new.items ≡ noted found.old.items ++ statement_notes (statements_of statements.now) tail.now) }
{
    for statement in statements {
        found.push(&statement.comments)?;
    }
    found.push(tail)?;
    Ok(())
}

/// The same for those of a node that is a block.
fn put_block<'b>(node: &'b Node, found: &mut Vec<&'b Comments>) -> Result<(), Memory>
    ensures { OnOk result (noted found.new.items ≡ noted found.old.items ++ block_notes node.now) }
{
    match &node.kind {
        NodeKind::Block { body, .. } => put_notes(body.statements.as_slice(), &body.tail, found),
        NodeKind::Var { .. } | NodeKind::Literal { .. } | NodeKind::Assign { .. } => Ok(()),
        NodeKind::Send { .. } | NodeKind::Cascade { .. } => Ok(()),
        NodeKind::Brace { .. } | NodeKind::Return { .. } => Ok(()),
    }
}

/// The same for those of nodes.
fn put_blocks<'b>(nodes: &[&'b Node], found: &mut Vec<&'b Comments>) -> Result<(), Memory>
    ensures { OnOk result (noted found.new.items ≡ noted found.old.items ++ flat_map block_notes (pointed nodes.now)) }
{
    for node in nodes {
        put_block(*node, found)?;
    }
    Ok(())
}

/// All comments of a body: its own, and those of the blocks in it.
fn notes_of<'b>(alloc: Global, body: &'b Sequence) -> Result<Vec<&'b Comments>, Memory>
    ensures { IfOk result (λ found. noted found.items ≡ all_notes (sequence_of body.now)) }
{
    let mut found = Vec::new(alloc);
    put_notes(body.statements.as_slice(), &body.tail, &mut found)?;
    let nodes = nodes_of(alloc, body)?;
    put_blocks(nodes.as_slice(), &mut found)?;
    Ok(found)
}

/// Whether both are the same texts.
fn same_texts(a: &[Text], b: &[Text]) -> bool
    ensures { IsTrue result ↔ (a.now ≡ b.now) }
{
    if a.len() != b.len() {
        return false;
    }
    for (i, text) in a.iter().enumerate() {
        if !text.same(&b[i]) {
            return false;
        }
    }
    true
}

/// Whether both are the same comments.
fn same_comments(a: &Comments, b: &Comments) -> bool
    ensures { IsTrue result ↔ (a.now ≡ b.now) }
{
    same_texts(a.as_slice(), b.as_slice())
}

/// Whether the same comments stand in both lists, in the same order.
fn same_notes(a: &[&Comments], b: &[&Comments]) -> bool
    ensures { IsTrue result ↔ (noted a.now ≡ noted b.now) }
{
    if a.len() != b.len() {
        return false;
    }
    for (i, comments) in a.iter().enumerate() {
        if !same_comments(*comments, b[i]) {
            return false;
        }
    }
    true
}

/// Whether both are the same statements, whatever their comments.
fn same_statements(a: &[Statement], b: &[Statement]) -> bool
    ensures { IsTrue result ↔ (bare_statements (statements_of a.now) ≡ bare_statements (statements_of b.now)) }
{
    if a.len() != b.len() {
        return false;
    }
    for (i, statement) in a.iter().enumerate() {
        if !same(&statement.node, &b[i].node) {
            return false;
        }
    }
    true
}

/// Whether both bodies are equal, their comments too.
pub(crate) fn equal_bodies(alloc: Global, a: &Sequence, b: &Sequence) -> Result<bool, Memory>
    ensures { IfOk result (λ are. IsTrue are ↔ AreEqual (sequence_of a.now) (sequence_of b.now)) }
{
    if !a.temporaries.same(&b.temporaries) {
        return Ok(false);
    }
    if !same_statements(a.statements.as_slice(), b.statements.as_slice()) {
        return Ok(false);
    }
    let here = notes_of(alloc, a)?;
    let there = notes_of(alloc, b)?;
    Ok(same_notes(here.as_slice(), there.as_slice()))
}
