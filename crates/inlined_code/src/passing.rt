// What is passed for the arguments of a method, and its statements with that in their place.
ghost use Rattle.std.specs.Prelude.{◌≡◌, nat_eq, IfOk};
ghost use Rattle.std.specs.Option.{option_copied};
ghost use Rattle.tree_model.specs.Tree.{trees_of};
ghost use Rattle.st_tree.specs.View.{method_of, statements_of};
ghost use Rattle.command_model.specs.Places.{is_formal};
ghost use Rattle.command_model.specs.Inlined as model;
ghost use Rattle.commands.specs.Views.{asked_by};

use rb_base::{Memory, NameId, Names};
use remade_code::{Making, remake_doit};
use st_scope::{Local, local_at};
use st_tree::{Method, Node, NodeKind, Nodes, Path, Statement, Statements, try_copy_doit};
use std::alloc::Global;

/// The expression that statements answer which are one return alone.
pub fn answered(statements: &[Statement]) -> Option<&Node>
    ensures { option_copied result ≡ model.answered (statements_of statements.now) }
{
    let (statement, rest) = statements.split_first()?;
    if !rest.is_empty() {
        return None;
    }
    match &statement.node.kind {
        NodeKind::Return { value } => Some(value),
        _ => None,
    }
}

/// Whether the name is one of the arguments of the method itself.
fn is_formal(local: Local) -> bool
    ensures { result ≡ is_formal local }
{
    match local {
        Local::Argument { scope } => scope == 0,
        Local::Temporary { .. } | Local::NotLocal => false,
    }
}

/// What is passed for the name, where it is one of these arguments.
fn passed_as<'a>(formals: &[NameId], passed: &'a [Node], name: NameId) -> Option<&'a Node>
    ensures { option_copied result ≡ model.passed_as nat_eq formals.now (trees_of passed.now) name }
{
    let (formal, formals) = formals.split_first()?;
    let (node, passed) = passed.split_first()?;
    if name == *formal {
        Some(node)
    } else {
        passed_as(formals, passed, name)
    }
}

/// What is passed for the name at a place of the method, where that is an argument of the method and there is one passed for
/// it.
pub fn passed_for<'a>(
    names: &Names,
    method: &Method,
    passed: &'a Nodes,
    path: &Path,
    name: NameId,
) -> Option<&'a Node>
    ensures { option_copied result ≡ model.passed_for (asked_by names.now) (method_of method.now) (trees_of passed.now) path.now name }
{
    if !is_formal(local_at(method, path, name, names)) {
        return None;
    }
    passed_as(method.arguments.as_slice(), passed.as_slice(), name)
}

/// What is passed for the arguments of a method.
#[derive(Drop)]
struct Filling<'a> {
    names: &'a Names,
    method: &'a Method,
    passed: &'a Nodes,
}

impl Making for Filling<'_> {
    ghost use Rattle.inlined_code.specs.Filling.{filled};

    ghost making = { filled };

    fn make(&self, alloc: Global, steps: &[usize], node: &mut Node) -> Result<(), Memory> {
        if let NodeKind::Var { name } = &node.kind {
            let path = Path::from_vec(Vec::from_slice(alloc, steps)?);
            if let Some(passed) = passed_for(self.names, self.method, self.passed, &path, *name) {
                *node = passed.try_copy(alloc)?;
            }
        }
        Ok(())
    }
}

/// The statements of the method with what is passed in place of its arguments. Want of memory, if there is not enough of it
/// for these.
pub fn unfolded(
    alloc: Global,
    names: &Names,
    method: &Method,
    passed: &Nodes,
) -> Result<Statements, Memory>
    ensures { IfOk result (λ statements. statements_of statements ≡ model.unfolded (asked_by names.now) (method_of method.now) (trees_of passed.now)) }
{
    let filling = Filling {
        names,
        method,
        passed,
    };
    let mut body = try_copy_doit(alloc, &method.body)?;
    remake_doit(alloc, &filling, &mut body)?;
    Ok(body.statements)
}
