// The free names of parts, and whether a name is assigned in a closure, in a method and in its body as a do-it.
use crate::places::path;
use rb_base::{Ids, Memory, NameId, Names};
use st_parser::parse_method;
use st_scope::{
    assigned_in_closure, assigned_in_closure_doit, free_names, free_names_doit, is_control,
};
use st_tree::{Method, Part, Path};
use std::alloc::Global;

const METHOD: &[u8] =
    b"m: a | t | t := [:x | | y | y := t. [:t | self]]. a ifTrue: [t := a] ifFalse: [t := b]. [t := b]";

/// The same method, but the last block assigns `b`.
const OTHER: &[u8] =
    b"m: a | t | t := [:x | | y | y := t. [:t | self]]. a ifTrue: [t := a] ifFalse: [t := b]. [b := b]";

/// Whether the free names of a part are these, once in the method and once in the do-it.
fn are_free(
    alloc: Global,
    method: &Method,
    names: &Names,
    part: &Part,
    wanted: &[&str],
) -> Result<bool, Memory> {
    let mut in_method = Ids::new(alloc);
    free_names(alloc, method, part, names, &mut in_method)?;
    let mut in_doit = Ids::new(alloc);
    free_names_doit(alloc, &method.body, part, names, &mut in_doit)?;
    Ok(in_method.same(&in_doit) && are_named(names, in_doit.as_slice(), wanted))
}

/// Whether the names are those of these texts.
fn are_named(names: &Names, ids: &[NameId], texts: &[&str]) -> bool {
    ids.len() == texts.len()
        && ids
            .iter()
            .zip(texts)
            .all(|(id, text)| names.find(text.as_bytes()) == Some(*id))
}

/// Whether the block that the first statement assigns has its free names.
fn block_has_free_names(alloc: Global, method: &Method, names: &Names) -> Result<bool, Memory> {
    let path = path(alloc, &[0, 0])?;
    are_free(
        alloc,
        method,
        names,
        &Part::Expression { path },
        &["t", "self"],
    )
}

/// Whether the two statements behind it have theirs.
fn run_has_free_names(alloc: Global, method: &Method, names: &Names) -> Result<bool, Memory> {
    let path = Path::new(alloc);
    let run = Part::Run {
        path,
        first: 1,
        count: 2,
    };
    are_free(alloc, method, names, &run, &["a", "t", "b"])
}

/// Whether the name `t` is assigned in a closure, both of the method and of the do-it, or in none.
fn is_assigned(alloc: Global, method: &Method, names: &Names, wanted: bool) -> bool {
    let Some(name) = names.find(b"t") else {
        return false;
    };
    let whole = Path::new(alloc);
    assigned_in_closure(method, &whole, name, names) == wanted
        && assigned_in_closure_doit(&method.body, &whole, name, names) == wanted
}

/// Whether the second statement is a control send.
fn second_is_control(method: &Method, names: &Names) -> bool {
    match method.body.statements.as_slice().get(1) {
        Some(statement) => is_control(&statement.node, names),
        None => false,
    }
}

/// Whether all this holds of the text of a method.
fn are_so(alloc: Global, text: &[u8], assigned: bool) -> bool {
    let mut names = Names::new(alloc);
    match parse_method(alloc, text, false, &mut names) {
        Ok(method) => {
            block_has_free_names(alloc, &method, &names) == Ok(true)
                && run_has_free_names(alloc, &method, &names) == Ok(true)
                && is_assigned(alloc, &method, &names, assigned)
                && second_is_control(&method, &names)
        }
        Err(_) => false,
    }
}

#[test]
fn closures_have_free_names(rt: HostRuntime) {
    assert!(rt; are_so(rt.alloc(), METHOD, true));
    assert!(rt; are_so(rt.alloc(), OTHER, false));
}
