// Texts, and where their nodes stand.
ghost use Rattle.std.specs.Prelude.{◌≡◌, IfOk};

use rb_base::{Memory, Span};
use st_spans::{
    ParseFault, Spans, doit_spans, lend_part, part_of_span, span_of, span_of_doit, spans,
};
use st_tree::{Part, Path};
use std::alloc::Global;

/// The path of a node, and its place.
type Row = (&'static [usize], usize, usize);

const METHOD: &[u8] = b"pay: x | rate | rate := 2. ^(x + 1) * rate";

/// The nodes of the method in preorder.
const NODES: &[Row] = &[
    (&[0], 16, 25),
    (&[0, 0], 24, 25),
    (&[1], 27, 42),
    (&[1, 0], 28, 42),
    (&[1, 0, 0], 29, 34),
    (&[1, 0, 0, 0], 29, 30),
    (&[1, 0, 0, 1], 33, 34),
    (&[1, 0, 1], 38, 42),
];

const DOIT: &[u8] = b"a foo: [:x | x. y]; bar. {(b)}";

/// The nodes of the do-it in preorder.
const DOIT_NODES: &[Row] = &[
    (&[0], 0, 23),
    (&[0, 0], 0, 1),
    (&[0, 1], 7, 18),
    (&[0, 1, 0], 13, 14),
    (&[0, 1, 1], 16, 17),
    (&[1], 25, 30),
    (&[1, 0], 27, 28),
];

/// The path of these steps.
pub(crate) fn path(alloc: Global, steps: &[usize]) -> Result<Path, Memory>
    ensures { IfOk result (λ path. path ≡ steps.now) }
{
    Ok(Path::from_vec(Vec::from_slice(alloc, steps)?))
}

/// Whether the nodes are those of the rows.
fn are_so(found: &Spans, rows: &[Row]) -> bool {
    found.as_slice().len() == rows.len()
        && found.as_slice().iter().zip(rows).all(|(node, (steps, from, to))| {
            node.path.as_slice() == *steps && node.span.from == *from && node.span.to == *to
        })
}

/// Whether spans were found, and are those of the rows.
fn are_found(found: Result<Spans, ParseFault>, rows: &[Row]) -> bool {
    match found {
        Ok(found) => are_so(&found, rows),
        Err(_) => false,
    }
}

/// Whether the last nodes of the method and of the do-it have their places, and that of the method is lent.
fn last_are_found(alloc: Global) -> Result<bool, ParseFault> {
    let in_method = path(alloc, &[1, 0, 1])?;
    let in_doit = path(alloc, &[1, 0])?;
    let first = span_of(alloc, METHOD, &in_method)?;
    let second = span_of_doit(alloc, DOIT, &in_doit)?;
    let lent = lend_part(alloc, METHOD, &in_method)?;
    Ok(
        first == Some(Span { from: 38, to: 42 })
            && second == Some(Span { from: 27, to: 28 })
            && lent == Some(b"rate".as_slice()),
    )
}

#[test]
fn nodes_have_their_places(rt: HostRuntime) {
    assert!(rt; are_found(spans(rt.alloc(), METHOD), NODES));
    assert!(rt; are_found(doit_spans(rt.alloc(), DOIT), DOIT_NODES));
    assert!(rt; last_are_found(rt.alloc()) == Ok(true));
}

/// What stands between two places: nothing, a node by its path, or so many statements of the body from the one of a number on.
enum Found {
    Nothing,
    Node(&'static [usize]),
    Run(usize, usize),
}

const STATEMENTS: &[u8] = b"go | x b | x := 1. b := [x := x + 1]. ^b value + x";

/// Two places in a method, and what stands between them.
const PARTS: &[(usize, usize, Found)] = &[
    (39, 50, Found::Node(&[2, 0])),
    (38, 50, Found::Node(&[2])),
    (11, 17, Found::Node(&[0])),
    (25, 35, Found::Node(&[1, 0, 0])),
    (11, 36, Found::Run(0, 2)),
    (19, 50, Found::Run(1, 2)),
    (11, 37, Found::Nothing),
    (25, 50, Found::Nothing),
];

/// Whether the part is what is wanted.
fn is_part(part: &Option<Part>, wanted: &Found) -> bool {
    match (part, wanted) {
        (None, Found::Nothing) => true,
        (Some(Part::Expression { path }), Found::Node(steps)) => path.as_slice() == *steps,
        (Some(Part::Run { path, first, count }), Found::Run(from, many)) => {
            path.len() == 0 && *first == *from && *count == *many
        }
        _ => false,
    }
}

/// Whether what stands between two places of the method is what is wanted.
fn stands(alloc: Global, from: usize, to: usize, wanted: &Found) -> bool {
    match part_of_span(alloc, STATEMENTS, from, to) {
        Ok(part) => is_part(&part, wanted),
        Err(_) => false,
    }
}

#[test]
fn parts_stand_at_places(rt: HostRuntime) {
    for (from, to, wanted) in PARTS {
        assert!(rt; stands(rt.alloc(), *from, *to, wanted));
    }
}
