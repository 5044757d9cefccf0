// A temporary that stands in place of an expression.
ghost use Rattle.std.specs.Prelude.{ℕ, ◌≡◌, ◌<◌, option_map, IfOk};
ghost use Rattle.std.specs.Option.{ForSome};
ghost use Rattle.tree_model.specs.Tree.{assign};
ghost use Rattle.tree_model.specs.AllNames.{MethodNames};
ghost use Rattle.tree_model.specs.Normal.{normal};
ghost use Rattle.st_tree.specs.View.{method_of};
ghost use Rattle.st_tree.specs.declared.tree.Method.{Method};
ghost use Rattle.command_model.specs.Asked.{AskedOf};
ghost use Rattle.command_model.specs.Temporaries.{temporary_extracted};

use crate::changing::{Changing, change_sequence};
use part_questions::innermost;
use rb_base::{Memory, NameId};
use st_tree::{
    Comments, Method, Node, NodeKind, Path, Sequence, Statement, Statements, part_at, try_copy,
};
use std::alloc::Global;
use std::mem::replace;
use temporary_code::normalized;
use tree_lending::put_at;

/// A temporary, and what is assigned to it before the statement of a number.
#[derive(Drop)]
struct Declaring<'m> {
    variable: NameId,
    number: usize,
    value: &'m Node,
}

impl Declaring<'_> {
    /// The assignment.
    fn assignment(&self, alloc: Global) -> Result<Node, Memory>
        ensures { IfOk result (λ node. node ≡ assign self.now.variable self.now.value.now) }
    {
        let value = Box::new(alloc, self.value.try_copy(alloc)?)?;
        let kind = NodeKind::Assign {
            name: self.variable,
            value,
        };
        Ok(Node { kind })
    }
}

impl Changing for Declaring<'_> {
    ghost use Rattle.let_code.specs.Changes.{declaring};

    ghost changing = { declaring };

    fn change(&self, alloc: Global, body: &mut Sequence) -> Result<(), Memory> {
        let assignment = Statement {
            comments: Comments::new(alloc),
            node: self.assignment(alloc)?,
        };
        let mut items = replace(&mut body.statements, Statements::new(alloc)).into_vec();
        let at = self.number.min(items.len());
        items.insert(at, assignment)?;
        body.statements = Statements::from_vec(items);
        body.temporaries.push(self.variable)?;
        Ok(())
    }
}

/// The method in which a temporary stands in place of the expression to which the path leads, which is assigned to it before
/// the statement that has the expression, its comments in normal form; `None` where the path leads to no node. Want of memory,
/// if there is not enough of it for the method.
pub fn temporary_extracted(
    alloc: Global,
    method: &Method,
    path: &Path,
    variable: NameId,
) -> Result<Option<Method>, Memory>
    ensures tree { (a : AskedOf ℕ) → IfOk result (λ after. option_map method_of after ≡ option_map normal (temporary_extracted a (method_of method.now) path.now variable)) }
    ensures known { (k : ℕ) → IfOk result (λ after. variable < k → MethodNames (λ n. n < k) (method_of method.now) → ForSome after (λ (m : Method). MethodNames (λ n. n < k) (method_of m))) }
{
    let Some(value) = part_at(method, path) else {
        return Ok(None);
    };
    let steps = path.as_slice();
    let scope = innermost(method, path);
    if steps.len() <= scope {
        return Ok(None);
    }
    let mut after = try_copy(alloc, method)?;
    let kind = NodeKind::Var { name: variable };
    put_at(&mut after, path, Node { kind });
    let declaring = Declaring {
        variable,
        number: steps[scope],
        value,
    };
    let sequence = Path::from_vec(Vec::from_slice(alloc, &steps[..scope])?);
    change_sequence(alloc, &declaring, &mut after, &sequence)?;
    Ok(Some(normalized(alloc, after)?))
}
