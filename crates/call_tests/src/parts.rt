// The parts of a method to which paths lead: found, lent and put, in the method and in its body as a do-it.
use crate::places::path;
use rb_base::{Memory, NameId, Names};
use st_parser::parse_method;
use st_tree::{Method, Node, NodeKind, Path, Sequence, part_at, part_at_doit, try_copy};
use std::alloc::Global;
use tree_lending::{part_mut, part_mut_doit, put_at, put_at_doit};

const METHOD: &[u8] = b"go \"1\" r m: a n: b; m: c; m: d n: e. [f. g]. {h. i}. j m: k. \"2\"";

/// Paths to variables, and their names.
const PLACES: &[(&[usize], &str)] = &[
    (&[0, 0], "r"),
    (&[0, 2], "b"),
    (&[0, 3], "c"),
    (&[0, 5], "e"),
    (&[1, 1], "g"),
    (&[2, 0], "h"),
    (&[3, 0], "j"),
    (&[3, 1], "k"),
];

/// Paths to nothing.
const NOWHERE: &[&[usize]] = &[&[], &[0, 6], &[0, 3, 0], &[1, 2], &[2, 2], &[3, 2], &[4]];

/// A variable of a number that no name of the text has.
fn variable(number: usize) -> Node {
    Node {
        kind: NodeKind::Var {
            name: NameId(number),
        },
    }
}

/// The name of a variable.
fn name_of(node: Option<&Node>) -> Option<NameId> {
    match &node?.kind {
        NodeKind::Var { name } => Some(*name),
        _ => None,
    }
}

/// Whether a path leads to the variable of a name, or to none, in the method and in the do-it.
fn leads_to(method: &Method, path: &Path, name: Option<NameId>) -> bool {
    name_of(part_at(method, path)) == name && name_of(part_at_doit(&method.body, path)) == name
}

/// Writes a variable along a loan of a method, if there is one.
fn write(method: &mut Method, path: &Path, number: usize) -> bool {
    match part_mut(method, path) {
        Some(place) => {
            *place = variable(number);
            true
        }
        None => false,
    }
}

/// Writes a variable along a loan of a do-it, if there is one.
fn write_in_doit(body: &mut Sequence, path: &Path, number: usize) -> bool {
    match part_mut_doit(body, path) {
        Some(place) => {
            *place = variable(number);
            true
        }
        None => false,
    }
}

/// Whether a variable is put where a path leads, in each way.
fn is_changed(method: &mut Method, path: &Path) -> bool {
    write(method, path, 1000)
        && leads_to(method, path, Some(NameId(1000)))
        && write_in_doit(&mut method.body, path, 1001)
        && leads_to(method, path, Some(NameId(1001)))
        && put_at(method, path, variable(1002))
        && leads_to(method, path, Some(NameId(1002)))
        && put_at_doit(&mut method.body, path, variable(1003))
        && leads_to(method, path, Some(NameId(1003)))
}

/// Whether each path of the first table leads to its variable, which is then changed.
fn are_changed(alloc: Global, method: &mut Method, names: &Names) -> Result<bool, Memory> {
    for (steps, name) in PLACES {
        let path = path(alloc, steps)?.try_copy(alloc)?;
        if !leads_to(method, &path, names.find(name.as_bytes())) || !is_changed(method, &path) {
            return Ok(false);
        }
    }
    Ok(true)
}

/// Whether each path of the second table leads nowhere.
fn lead_nowhere(alloc: Global, method: &mut Method) -> Result<bool, Memory> {
    for steps in NOWHERE {
        let path = path(alloc, steps)?;
        let found = part_at(method, &path).is_some();
        if found || put_at(method, &path, variable(1000)) {
            return Ok(false);
        }
    }
    Ok(true)
}

/// Whether the paths of both tables lead where they say in a copy of a method.
fn are_so(alloc: Global, method: &Method, names: &Names) -> bool {
    match try_copy(alloc, method) {
        Ok(mut copy) => {
            are_changed(alloc, &mut copy, names) == Ok(true)
                && lead_nowhere(alloc, &mut copy) == Ok(true)
        }
        Err(_) => false,
    }
}

#[test]
fn paths_lead_to_parts(rt: HostRuntime) {
    let mut names = Names::new(rt.alloc());
    match parse_method(rt.alloc(), METHOD, false, &mut names) {
        Ok(method) => assert!(rt; are_so(rt.alloc(), &method, &names)),
        Err(_) => assert!(rt; false),
    }
}
