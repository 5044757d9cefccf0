// Lists of nodes and names of small bodies, read by hand.
use crate::{doit_names, method_names, nodes_of};
use rb_base::{Ids, Memory, NameId};
use st_tree::{Comments, Method, Node, NodeKind, Sequence, Statement, Statements};
use std::alloc::Global;
use std::test::Fail;

/// The names of assignments `a := b`, how many nodes they are, the names that they mention, and those that a method with
/// them mentions, whose selector is 7 and whose argument is 2.
const BODIES: &[(&[(usize, usize)], usize, &[usize], &[usize])] = &[
    (&[], 0, &[], &[2, 7]),
    (&[(4, 1), (1, 4)], 4, &[1, 4], &[1, 2, 4, 7]),
    (&[(2, 9), (9, 9), (7, 2)], 6, &[2, 7, 9], &[2, 7, 9]),
];

/// An assignment to the first of two variables.
fn assignment(alloc: Global, names: &(usize, usize)) -> Result<Statement, Memory> {
    let read = Node {
        kind: NodeKind::Var {
            name: NameId(names.1),
        },
    };
    let value = Box::new(alloc, read)?;
    let kind = NodeKind::Assign {
        name: NameId(names.0),
        value,
    };
    Ok(Statement {
        comments: Comments::new(alloc),
        node: Node { kind },
    })
}

/// The assignments, in a method.
fn method(alloc: Global, pairs: &[(usize, usize)]) -> Result<Method, Memory> {
    let mut statements = Statements::new(alloc);
    for pair in pairs {
        statements.push(assignment(alloc, pair)?)?;
    }
    let mut arguments = Ids::new(alloc);
    arguments.push(NameId(2))?;
    let body = Sequence {
        temporaries: Ids::new(alloc),
        statements,
        tail: Comments::new(alloc),
    };
    Ok(Method {
        selector: NameId(7),
        arguments,
        head: Comments::new(alloc),
        primitive: None,
        body,
    })
}

/// Whether the names have these numbers.
fn are(names: &Ids, numbers: &[usize]) -> bool {
    names.len() == numbers.len()
        && names
            .as_slice()
            .iter()
            .zip(numbers)
            .all(|(name, number)| name.0 == *number)
}

#[test]
fn names_are_listed_once(rt: HostRuntime) -> Result<(), Fail> {
    for (pairs, nodes, in_doit, in_method) in BODIES {
        let method = method(rt.alloc(), pairs)?;
        assert!(rt; nodes_of(rt.alloc(), &method.body)?.len() == *nodes);
        assert!(rt; are(&doit_names(rt.alloc(), &method.body)?, in_doit));
        assert!(rt; are(&method_names(rt.alloc(), &method)?, in_method));
    }
    Ok(())
}
