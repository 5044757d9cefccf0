//! Walks of trees of many levels: what recurses over a tree must have stack for it, in each build of the program.
#![tactic(auto)]

use rb_base::{Ids, Memory, NameId, Text};
use st_tree::{
    Comments, Literal, LiteralKind, Literals, Node, NodeKind, Nodes, Path, Sequence, Statement,
    Statements, height, part_at_doit, replace_at_doit, same, size_doit, try_copy_doit,
};
use std::alloc::Global;
use std::io;

/// A variable.
fn leaf(number: usize) -> Node {
    Node {
        kind: NodeKind::Var {
            name: NameId(number),
        },
    }
}

/// A sequence of one statement.
fn sequence_of(alloc: Global, node: Node) -> Result<Sequence, Memory> {
    let mut statements = Vec::new(alloc);
    statements.push(Statement {
        comments: Comments::new(alloc),
        node,
    })?;
    Ok(Sequence {
        temporaries: Ids::new(alloc),
        statements: Statements::from_vec(statements),
        tail: Comments::new(alloc),
    })
}

/// A message to the tree with an argument.
fn sent(alloc: Global, receiver: Node) -> Result<Node, Memory> {
    let receiver = Box::new(alloc, receiver)?;
    let mut arguments = Nodes::new(alloc);
    arguments.push(leaf(7))?;
    Ok(Node {
        kind: NodeKind::Send {
            receiver,
            selector: NameId(1),
            arguments,
        },
    })
}

/// A block round a message to the tree: two levels more.
fn wrapped(alloc: Global, inner: Node) -> Result<Node, Memory> {
    let send = sent(alloc, inner)?;
    let body = Box::new(alloc, sequence_of(alloc, send)?)?;
    Ok(Node {
        kind: NodeKind::Block {
            parameters: Ids::new(alloc),
            body,
        },
    })
}

/// A tree of twice so many levels and one more.
fn nested(alloc: Global, pairs: usize) -> Result<Node, Memory> {
    let mut node = leaf(0);
    for _ in 0..pairs {
        node = wrapped(alloc, node)?;
    }
    Ok(node)
}

/// The path to the deepest variable.
fn path_of(alloc: Global, pairs: usize) -> Result<Path, Memory> {
    let mut path = Path::new(alloc);
    path.push(0)?;
    for _ in 0..pairs {
        path.push(0)?;
        path.push(0)?;
    }
    Ok(path)
}

/// What was seen of a deep tree.
#[derive(Clone, Copy)]
struct Walked {
    height: usize,
    size: usize,
    copied: bool,
    found: bool,
    replaced: bool,
}

/// Whether the first statements of both are the same, comments aside.
fn same_first(a: &Sequence, b: &Sequence) -> bool {
    match (
        a.statements.as_slice().first(),
        b.statements.as_slice().first(),
    ) {
        (Some(one), Some(other)) => same(&one.node, &other.node),
        _ => false,
    }
}

/// Walks a tree of this many pairs of levels.
fn walk(alloc: Global, pairs: usize) -> Result<Walked, Memory> {
    let node = nested(alloc, pairs)?;
    let height = height(&node);
    let mut body = sequence_of(alloc, node)?;
    let size = size_doit(&body);
    let copy = try_copy_doit(alloc, &body)?;
    let copied = same_first(&body, &copy);
    let path = path_of(alloc, pairs)?;
    let found = part_at_doit(&body, &path).is_some();
    let part = Box::new(alloc, leaf(9))?;
    let replaced = replace_at_doit(&mut body, &path, part).is_ok() && !same_first(&body, &copy);
    Ok(Walked {
        height,
        size,
        copied,
        found,
        replaced,
    })
}

/// A number inside so many arrays.
fn nested_arrays(alloc: Global, levels: usize) -> Result<Literal, Memory> {
    let text = Text::from_slice(alloc, b"1")?;
    let mut literal = Literal {
        kind: LiteralKind::Number { text },
    };
    for _ in 0..levels {
        let mut items = Literals::new(alloc);
        items.push(literal)?;
        literal = Literal {
            kind: LiteralKind::Array { items },
        };
    }
    Ok(literal)
}

/// The height of so many arrays, and whether their copy is the same.
fn walk_arrays(alloc: Global, levels: usize) -> Result<(usize, bool), Memory> {
    let literal = nested_arrays(alloc, levels)?;
    let copied = literal.try_copy(alloc)?.same(&literal);
    let node = Node {
        kind: NodeKind::Literal { value: literal },
    };
    Ok((height(&node), copied))
}

fn main(rt: HostRuntime) -> io::Result<()> {
    for pairs in [0, 1, 100, 200, 1000] {
        match walk(rt.alloc(), pairs) {
            Ok(seen) => {
                let Walked {
                    height,
                    size,
                    copied,
                    found,
                    replaced,
                } = seen;
                println!(rt;
                    "height {height}, size {size}, copied {copied}, found {found}, replaced {replaced}"
                )?;
            }
            Err(Memory) => println!(rt; "no memory")?,
        }
    }
    match walk_arrays(rt.alloc(), 2000) {
        Ok((height, copied)) => println!(rt; "arrays: height {height}, copied {copied}")?,
        Err(Memory) => println!(rt; "no memory")?,
    }
    Ok(())
}
