// Names that are put into an environment.
ghost use Rattle.std.specs.Prelude.{◌≡◌, ◌++◌, ◌∷◌, [], map, length, get_or, IfOk};
ghost use Rattle.rb_base.specs.Names.{name_at};
ghost use Rattle.run_model.specs.Values.{nil_value};
ghost use Rattle.run_model.specs.Eval.{held, in_cells};

use crate::context::{Binding, BindingKind, Slot};
use crate::names::SharedNames;
use crate::value::Value;
use rb_base::{Memory, NameId};

fn argument(arguments: &[Value], at: usize) -> Result<Value, Memory>
    ensures { IfOk result (λ value. value ≡ get_or arguments.now at nil_value) }
{
    match arguments.get(at) {
        Some(value) => value.share(),
        None => Ok(Value::nil()),
    }
}

/// Appends the parameters with their arguments; a parameter without an argument is nil.
pub(crate) fn hold(
    slots: &mut Vec<Slot>,
    names: &SharedNames,
    parameters: &[NameId],
    arguments: &[Value],
) -> Result<(), Memory>
    ensures { IfOk result (λ _. slots.new.items ≡ slots.old.items ++ held (map (name_at names.now) parameters.now) arguments.now) }
{
    for at in 0..parameters.len() {
        let value = argument(arguments, at)?;
        slots.push(Slot {
            name: names.text(parameters[at])?,
            binding: Binding {
                kind: BindingKind::Holds(value),
            },
        })?;
    }
    Ok(())
}

/// Appends the temporaries, each with a new cell that holds nil.
pub(crate) fn make_cells(
    slots: &mut Vec<Slot>,
    cells: &mut Vec<Value>,
    names: &SharedNames,
    temporaries: &[NameId],
) -> Result<(), Memory>
    ensures slots { IfOk result (λ _. slots.new.items ≡ slots.old.items ++ in_cells (map (name_at names.now) temporaries.now) (length cells.old.items)) }
    ensures cells { IfOk result (λ _. cells.new.items ≡ cells.old.items ++ map (λ n. nil_value) (map (name_at names.now) temporaries.now)) }
{
    for name in temporaries {
        let cell = cells.len();
        cells.push(Value::nil())?;
        slots.push(Slot {
            name: names.text(*name)?,
            binding: Binding {
                kind: BindingKind::InCell(cell),
            },
        })?;
    }
    Ok(())
}
