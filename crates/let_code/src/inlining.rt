// A temporary in whose place stands what is assigned to it.
ghost use Rattle.std.specs.Prelude.{◌≡◌, ◌<◌, length, not, nat_eq, filter, IfOk, OnOk};
ghost use Rattle.tree_model.specs.AllNames.{AllNames, MethodNames};
ghost use Rattle.tree_model.specs.Normal.{normal};
ghost use Rattle.st_tree.specs.View.{method_of};
ghost use Rattle.command_model.specs.Asked.{no_parts};
ghost use Rattle.command_model.specs.Numbers.{number_asked};
ghost use Rattle.command_model.specs.Temporaries.{temporary_inlined};
ghost use Rattle.let_code.specs.Lets.{let_as};

use crate::assignment::Let;
use crate::changing::{Changing, change_sequence};
use crate::uses::is_read;
use inlined_code::put_for;
use rb_base::{Ids, Memory, NameId, Names};
use remade_code::{Making, remake_method};
use st_tree::{Method, Node, Path, Sequence, Statements, try_copy};
use std::alloc::Global;
use temporary_code::normalized;

/// A temporary of a method, and what is put in its place.
#[derive(Drop)]
struct Valuing<'a> {
    names: &'a Names,
    method: &'a Method,
    variable: NameId,
    value: &'a Node,
}

impl Making for Valuing<'_> {
    ghost use Rattle.let_code.specs.Valuing.{valued};

    ghost making = { valued };

    fn make(&self, alloc: Global, steps: &[usize], node: &mut Node) -> Result<(), Memory> {
        let path = Path::from_vec(Vec::from_slice(alloc, steps)?);
        if is_read(self.names, self.method, self.variable, &path, node) {
            *node = self.value.try_copy(alloc)?;
        }
        Ok(())
    }
}

/// A temporary, and the number of the statement that assigns it.
#[derive(Drop)]
struct Leaving {
    variable: NameId,
    number: usize,
}

/// The other ones of these names.
fn others(alloc: Global, names: &Ids, name: NameId) -> Result<Ids, Memory>
    ensures { IfOk result (λ found. found ≡ filter (λ n. not (nat_eq name n)) names.now) }
{
    let mut found = Ids::new(alloc);
    for other in names.as_slice() {
        if name != *other {
            found.push(*other)?;
        }
    }
    Ok(found)
}

impl Changing for Leaving {
    ghost use Rattle.let_code.specs.Changes.{without};

    ghost changing = { without };

    fn change(&self, alloc: Global, body: &mut Sequence) -> Result<(), Memory> {
        put_for(alloc, body, self.number, Statements::new(alloc))?;
        body.temporaries = others(alloc, &body.temporaries, self.variable)?;
        Ok(())
    }
}

/// The method in which the reads of a temporary are what the assignment assigns to it, without the assignment and the
/// declaration, its comments in normal form. Want of memory, if there is not enough of it for the method.
pub fn temporary_inlined(
    alloc: Global,
    names: &Names,
    method: &Method,
    variable: NameId,
    assignment: &Let<'_>,
) -> Result<Method, Memory>
    ensures tree { IfOk result (λ after. method_of after ≡ normal (temporary_inlined (number_asked names.now 0 no_parts) (method_of method.now) variable (let_as assignment.now))) }
    ensures known { IfOk result (λ after. MethodNames (λ n. n < length names.now) (method_of method.now) → AllNames (λ n. n < length names.now) assignment.now.value.now → MethodNames (λ n. n < length names.now) (method_of after)) }
{
    let valuing = Valuing {
        names,
        method,
        variable,
        value: assignment.value,
    };
    let mut after = try_copy(alloc, method)?;
    remake_method(alloc, &valuing, &mut after)?;
    let leaving = Leaving {
        variable,
        number: assignment.number,
    };
    change_sequence(alloc, &leaving, &mut after, &assignment.sequence)?;
    normalized(alloc, after)
}
