// A method in which an argument, a parameter or a temporary has another name.
ghost use Rattle.std.specs.Prelude.{◌≡◌, ◌<◌, length, map, IfOk};
ghost use Rattle.tree_model.specs.AllNames.{MethodNames};
ghost use Rattle.tree_model.specs.Normal.{normal};
ghost use Rattle.st_tree.specs.View.{method_of};
ghost use Rattle.command_model.specs.Asked.{no_parts};
ghost use Rattle.command_model.specs.Numbers.{number_asked};
ghost use Rattle.command_model.specs.Temporaries.{temporary_renamed};
ghost use Rattle.temporary_code.specs.Naming as model;

use crate::normal::normalized;
use rb_base::{Ids, Memory, NameId, Names};
use remade_code::{Making, remake_method};
use scope_model::Local;
use st_scope::local_at;
use st_tree::{Method, Node, NodeKind, Path, try_copy};
use std::alloc::Global;

/// What the arguments, parameters and temporaries of a name are called in a method.
#[derive(Drop)]
struct Naming<'a> {
    method: &'a Method,
    names: &'a Names,
    /// The name that they have.
    variable: NameId,
    /// The name that they get.
    to: NameId,
}

/// The name, or another one in place of one.
fn new_name(old: NameId, new: NameId, name: NameId) -> NameId
    ensures { result ≡ model.new_name old new name }
{
    if old == name { new } else { name }
}

impl Naming<'_> {
    /// These names, after.
    fn declared_after(&self, alloc: Global, names: &Ids) -> Result<Ids, Memory>
        ensures { IfOk result (λ found. found ≡ map (model.new_name self.now.variable self.now.to) names.now) }
    {
        let mut found = Ids::new(alloc);
        for name in names.as_slice() {
            found.push(new_name(self.variable, self.to, *name))?;
        }
        Ok(found)
    }

    /// The name that a node at the end of a path reads or assigns, after.
    fn name_after(&self, alloc: Global, steps: &[usize], name: NameId) -> Result<NameId, Memory>
        ensures { IfOk result (λ after. after ≡ model.use_name self.now steps.now name) }
    {
        let path = Path::from_vec(Vec::from_slice(alloc, steps)?);
        Ok(match local_at(self.method, &path, name, self.names) {
            Local::Argument { .. } | Local::Temporary { .. } => {
                new_name(self.variable, self.to, name)
            }
            Local::NotLocal => name,
        })
    }
}

impl Making for Naming<'_> {
    ghost use Rattle.temporary_code.specs.Naming.{called};

    ghost making = { called };

    fn make(&self, alloc: Global, steps: &[usize], node: &mut Node) -> Result<(), Memory> {
        match &mut node.kind {
            NodeKind::Var { name } => {
                *name = self.name_after(alloc, steps, *name)?;
                Ok(())
            }
            NodeKind::Assign { name, .. } => {
                *name = self.name_after(alloc, steps, *name)?;
                Ok(())
            }
            NodeKind::Block { parameters, body } => {
                *parameters = self.declared_after(alloc, parameters)?;
                body.temporaries = self.declared_after(alloc, &body.temporaries)?;
                Ok(())
            }
            NodeKind::Literal { .. }
            | NodeKind::Send { .. }
            | NodeKind::Cascade { .. }
            | NodeKind::Brace { .. }
            | NodeKind::Return { .. } => Ok(()),
        }
    }
}

/// The method after, its comments as they are.
fn renamed(alloc: Global, naming: &Naming<'_>) -> Result<Method, Memory>
    ensures { IfOk result (λ after. method_of after ≡ model.method_called naming.now (method_of naming.now.method.now)) }
{
    let mut method = try_copy(alloc, naming.method)?;
    remake_method(alloc, naming, &mut method)?;
    method.arguments = naming.declared_after(alloc, &method.arguments)?;
    method.body.temporaries = naming.declared_after(alloc, &method.body.temporaries)?;
    Ok(method)
}

/// The method in which arguments, parameters and temporaries of a name have another one, its comments in normal form.
pub fn renamed_temporary(
    alloc: Global,
    method: &Method,
    names: &Names,
    variable: NameId,
    to: NameId,
) -> Result<Method, Memory>
    ensures tree { IfOk result (λ after. method_of after ≡ normal (temporary_renamed (number_asked names.now 0 no_parts) (method_of method.now) variable to)) }
    ensures known { IfOk result (λ after. to < length names.now → MethodNames (λ n. n < length names.now) (method_of method.now) → MethodNames (λ n. n < length names.now) (method_of after)) }
{
    let naming = Naming {
        method,
        names,
        variable,
        to,
    };
    let after = renamed(alloc, &naming)?;
    normalized(alloc, after)
}
