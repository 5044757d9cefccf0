// Whether equal parts stand at all places of one metavariable.
ghost use Rattle.std.specs.Prelude.{◌≡◌, ◌<◌, ◌↔◌, IsTrue, map, nat_eq, length, get_or, position, unwrap_or};
ghost use Rattle.tree_model.specs.Tree.{trees_of};
ghost use Rattle.tree_model.specs.Bare.{bare_trees, bare_statements};
ghost use Rattle.st_tree.specs.View.{statements_of};
ghost use Rattle.pattern_model.specs.Bindings.{kind_number, bare_bound, same_meta};
ghost use Rattle.patterns.specs.View.{meta_of};
ghost use Rattle.pattern_match.specs.Gathering.{bound_from, place_of};
ghost use Rattle.pattern_match.specs.FirstPlaces.{agrees, IsFirst, no_place};

use crate::standing::{Place, Standing};
use pattern_model::MetaKind;
use patterns::Meta;
use st_tree::{Node, Statement, same};

/// The number of a kind, in their order.
fn kind_number(kind: MetaKind) -> u8
    ensures { result ≡ kind_number kind }
{
    match kind {
        MetaKind::Name => 0,
        MetaKind::Constant => 1,
        MetaKind::Expression => 2,
        MetaKind::Statement => 3,
        MetaKind::StatementList => 4,
        MetaKind::Unary => 5,
        MetaKind::Keyword => 6,
        MetaKind::Message => 7,
    }
}

/// Whether both are one metavariable: of one kind and name.
pub fn same_meta(a: Meta, b: Meta) -> bool
    ensures { result ≡ same_meta nat_eq (meta_of a) (meta_of b) }
{
    kind_number(a.kind) == kind_number(b.kind) && a.name.0 == b.name.0
}

/// Whether both are the same nodes, whatever their comments.
fn same_nodes(a: &[Node], b: &[Node]) -> bool
    ensures { IsTrue result ↔ (bare_trees (trees_of a.now) ≡ bare_trees (trees_of b.now)) }
{
    if a.len() != b.len() {
        return false;
    }
    for (i, node) in a.iter().enumerate() {
        if !same(node, &b[i]) {
            return false;
        }
    }
    true
}

/// Whether both are the same statements, whatever their comments.
fn same_runs(a: &[Statement], b: &[Statement]) -> bool
    ensures { IsTrue result ↔ (bare_statements (statements_of a.now) ≡ bare_statements (statements_of b.now)) }
{
    if a.len() != b.len() {
        return false;
    }
    for (i, statement) in a.iter().enumerate() {
        if !same(&statement.node, &b[i].node) {
            return false;
        }
    }
    true
}

/// Whether both are the same, whatever their comments.
fn same_standing(a: &Standing<'_>, b: &Standing<'_>) -> bool
    ensures { IsTrue result ↔ (bare_bound (bound_from a.now) ≡ bare_bound (bound_from b.now)) }
{
    match (a, b) {
        (Standing::Part(a), Standing::Part(b)) => same(a, b),
        (Standing::Run(a), Standing::Run(b)) => same_runs(a, b),
        (Standing::Selector(a), Standing::Selector(b)) => a.0 == b.0,
        (Standing::Keyword(a), Standing::Keyword(b)) => a.same(b),
        (Standing::Message(s, a), Standing::Message(t, b)) => s.0 == t.0 && same_nodes(a, b),
        _ => false,
    }
}

/// The number of the first place of the metavariable.
fn place_number(places: &[Place<'_>], meta: Meta) -> Option<usize>
    ensures { result ≡ position (λ x. same_meta nat_eq (meta_of x.meta) (meta_of meta)) places.now }
{
    places.iter().position(|place| same_meta(place.meta, meta))
}

/// The number of the first place of the metavariable, or how many places there are where it has none.
pub(crate) fn first_place(places: &[Place<'_>], meta: Meta) -> usize
    ensures { result ≡ unwrap_or (position (λ x. same_meta nat_eq (meta_of x.meta) (meta_of meta)) places.now) (length places.now) }
{
    place_number(places, meta).unwrap_or(places.len())
}

/// Whether the same stands at a place as at the first place of its metavariable.
fn is_as_first(places: &[Place<'_>], at: usize) -> bool
    requires { at < length places.now }
    ensures { IsTrue result ↔ IsFirst (map place_of places.now) (get_or (map place_of places.now) at no_place) }
{
    let place = &places[at];
    let first = first_place(places, place.meta);
    let earlier = first < at;
    if earlier {
        same_standing(&places[first].bound, &place.bound)
    } else {
        true
    }
}

/// Whether equal parts stand at all places of one metavariable: each is compared with the first.
pub(crate) fn agree(places: &[Place<'_>]) -> bool
    ensures { result ≡ agrees (map place_of places.now) }
{
    for i in 0..places.len() {
        if !is_as_first(places, i) {
            return false;
        }
    }
    true
}
