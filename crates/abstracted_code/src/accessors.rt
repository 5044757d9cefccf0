// Getters and setters.
ghost use Rattle.std.specs.Prelude.{◌≡◌, IfOk};
ghost use Rattle.st_tree.specs.View.{method_of};
ghost use Rattle.command_model.specs.Accessors as model;

use rb_base::{Ids, Memory, NameId};
use st_tree::{Comments, Method, Node, NodeKind, Sequence, Statement, Statements};
use std::alloc::Global;

/// A method that answers an expression.
fn answering(alloc: Global, selector: NameId, arguments: Ids, value: Node) -> Result<Method, Memory>
    ensures { IfOk result (λ tree. method_of tree ≡ model.answering selector arguments value) }
{
    let kind = NodeKind::Return {
        value: Box::new(alloc, value)?,
    };
    let mut statements = Statements::new(alloc);
    statements.push(Statement {
        comments: Comments::new(alloc),
        node: Node { kind },
    })?;
    let body = Sequence {
        temporaries: Ids::new(alloc),
        statements,
        tail: Comments::new(alloc),
    };
    Ok(Method {
        selector,
        arguments,
        head: Comments::new(alloc),
        primitive: None,
        body,
    })
}

/// The getter of a variable, whose selector is its name.
pub fn getter(alloc: Global, variable: NameId) -> Result<Method, Memory>
    ensures { IfOk result (λ tree. method_of tree ≡ model.getter variable) }
{
    let kind = NodeKind::Var { name: variable };
    answering(alloc, variable, Ids::new(alloc), Node { kind })
}

/// The setter of a variable, of this selector and this name of its parameter.
pub fn setter(
    alloc: Global,
    variable: NameId,
    selector: NameId,
    parameter: NameId,
) -> Result<Method, Memory>
    ensures { IfOk result (λ tree. method_of tree ≡ model.setter_of variable selector parameter) }
{
    let mut arguments = Ids::new(alloc);
    arguments.push(parameter)?;
    let given = NodeKind::Var { name: parameter };
    let kind = NodeKind::Assign {
        name: variable,
        value: Box::new(alloc, Node { kind: given })?,
    };
    answering(alloc, selector, arguments, Node { kind })
}
