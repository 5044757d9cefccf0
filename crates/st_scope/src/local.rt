// What a name stands for at a place in a method or a do-it.
ghost use Rattle.std.specs.Prelude.{ℕ, ◌≡◌, ◌+◌, ◌<◌, ◌^◌, ◌∷◌, [], nat_eq, length, slice_get};
ghost use Rattle.std.specs.Option.{option_copied};
ghost use Rattle.tree_model.specs.Path.{nth, statement_trees};
ghost use Rattle.scope_model.specs.Scope.{own_scope, entered, local_in, local_in_doit, local_in_scope, ScopeOf};
ghost use Rattle.scope_model.specs.NameTests.{is_pseudo_in};
ghost use Rattle.st_tree.specs.View.{method_of, sequence_of, statements_of};
ghost use Rattle.st_scope.specs.LocalFrom.{declared_or, local_or};

use crate::special::{is_among, is_pseudo};
use rb_base::{NameId, Names};
use scope_model::Local;
use st_tree::{Method, Node, NodeKind, Path, Sequence, Statement};

/// What these arguments and temporaries, `scope` steps down the path, say of the name, or else what is known outside.
fn declared_or(
    arguments: &[NameId],
    temporaries: &[NameId],
    scope: usize,
    name: NameId,
    outside: Local,
) -> Local
    ensures { result ≡ declared_or arguments.now temporaries.now scope name outside }
{
    if is_among(arguments, name) {
        Local::Argument { scope }
    } else if is_among(temporaries, name) {
        Local::Temporary { scope }
    } else {
        outside
    }
}

/// What the name stands for inside a node that is `depth` steps down, if outside of it `outside` is known.
fn local_inside(node: &Node, depth: usize, name: NameId, outside: Local) -> Local
    ensures { result ≡ local_or (own_scope depth node.now) name outside }
{
    match &node.kind {
        NodeKind::Block { parameters, body } => {
            declared_or(
                parameters.as_slice(),
                body.temporaries.as_slice(),
                depth,
                name,
                outside,
            )
        }
        _ => outside,
    }
}

/// What the name stands for where the steps lead from a node that is `depth` steps down, if outside of it `outside` is known.
fn local_below(node: &Node, depth: usize, steps: &[usize], name: NameId, outside: Local) -> Local
    requires { depth + length steps.now < 2 ^ 64 }
    ensures { result ≡ local_or (entered depth node.now steps.now) name outside }
{
    match steps.split_first() {
        None => outside,
        Some((step, rest)) => {
            let inside = local_inside(node, depth, name, outside);
            match node.child(*step) {
                None => inside,
                Some(child) => local_below(child, depth + 1, rest, name, inside),
            }
        }
    }
}

/// The statement of a number, counted from 0.
fn statement_at(statements: &[Statement], at: usize) -> Option<&Statement>
    ensures { option_copied result ≡ slice_get statements.now at }
{
    statements.get(at)
}

/// The node of the statement of a number, counted from 0.
#[tactic(auto, using(crate::proofs::Counts::statement_lemmas))]
fn statement_node(statements: &[Statement], at: usize) -> Option<&Node>
    ensures { option_copied result ≡ nth (statement_trees (statements_of statements.now)) at }
{
    match statement_at(statements, at) {
        Some(statement) => Some(&statement.node),
        None => None,
    }
}

/// What the name stands for where the steps lead from a body, round which these arguments stand.
fn local_in_body(
    arguments: &[NameId],
    body: &Sequence,
    steps: &[usize],
    name: NameId,
    names: &Names,
) -> Local
    ensures { let scope : ScopeOf ℕ = record { arguments = arguments.now; temporaries = body.now.temporaries; statements = statements_of body.now.statements } in
        result ≡ local_in_scope nat_eq (is_pseudo_in names.now) scope steps.now name }
{
    if is_pseudo(names, name) {
        return Local::NotLocal;
    }
    let outside = declared_or(
        arguments,
        body.temporaries.as_slice(),
        0,
        name,
        Local::NotLocal,
    );
    match steps.split_first() {
        None => outside,
        Some((step, rest)) => match statement_node(body.statements.as_slice(), *step) {
            None => outside,
            Some(node) => local_below(node, 1, rest, name, outside),
        },
    }
}

/// What the name stands for at the place in the method to which the path leads. The innermost declaration counts; those
/// of a block do not count at the block itself. A pseudo-variable's name is no local.
pub fn local_at(method: &Method, path: &Path, name: NameId, names: &Names) -> Local
    ensures { result ≡ local_in nat_eq (is_pseudo_in names.now) (method_of method.now) path.now name }
{
    local_in_body(
        method.arguments.as_slice(),
        &method.body,
        path.as_slice(),
        name,
        names,
    )
}

/// What the name stands for at the place in the do-it to which the path leads.
pub fn local_at_doit(body: &Sequence, path: &Path, name: NameId, names: &Names) -> Local
    ensures { result ≡ local_in_doit nat_eq (is_pseudo_in names.now) (sequence_of body.now) path.now name }
{
    local_in_body(&[], body, path.as_slice(), name, names)
}
