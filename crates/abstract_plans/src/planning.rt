// The changes by which a variable is read and assigned by messages.
ghost use Rattle.std.specs.Prelude.{◌≡◌, ◌<◌, length, None, IfOk};
ghost use Rattle.tree_model.specs.AllNames.{MethodNames};
ghost use Rattle.st_tree.specs.View.{method_of};
ghost use Rattle.class_table.specs.Valid.{IsOrderly};
ghost use Rattle.class_table.specs.View.{number_image};
ghost use Rattle.wider_slots.specs.Closed.{IsClosed};
ghost use Rattle.wider_slots.specs.Wider.{Wider};
ghost use Rattle.command_model.specs.Judged.{first_false};
ghost use Rattle.command_numbers.specs.CommandNames.{CommandNames};
ghost use Rattle.commands.specs.Views.{asked_by};
ghost use Rattle.reference_index.specs.Mentioned.{IsIndexOf};
ghost use Rattle.plans.specs.Plan.{IsPlan};
ghost use Rattle.abstract_plans.specs.Abstracted.{abstraction_command, getter_tree, setter_tree, accessor_rec};

use crate::code::code_changes;
use crate::laws::law_known;
use abstracted_code::{Abstraction, getter, setter};
use change_set::Changes;
use class_table::{ClassId, Image, MethodRec};
use method_plans::put_live;
use plans::Plan;
use rb_base::{Memory, Steps, Text};
use reference_index::Index;
use slot_room::room_for_method;
use st_formatter::format_method;
use st_tree::Method;
use std::alloc::Global;
use std::sync::ledger::Ledger;

/// The protocol of getters and setters.
const PROTOCOL: &[u8] = b"accessing";

/// A method that gives access to a variable, in canonical text.
fn accessor(alloc: Global, image: &Image, class: ClassId, tree: Method) -> Result<MethodRec, Memory>
    requires { MethodNames (λ n. n < length image.now.names) (method_of tree) }
    ensures { IfOk result (λ rec. rec ≡ accessor_rec image.now.names class tree) }
{
    let mut source = Text::new(alloc);
    format_method(alloc, &tree, image.names(), &mut source)?;
    Ok(MethodRec {
        class,
        meta: false,
        protocol: Text::from_slice(alloc, PROTOCOL)?,
        source,
        tree,
        kernel: false,
    })
}

/// The getter and the setter of a variable, as methods of a class.
#[derive(Drop)]
struct AccessorRecs {
    reader: MethodRec,
    writer: MethodRec,
}

/// The getter and the setter of the variable, as methods of a class.
fn accessors(
    alloc: Global,
    image: &Image,
    class: ClassId,
    abstraction: &Abstraction,
) -> Result<AccessorRecs, Memory>
    requires { CommandNames (λ n. n < length image.now.names) (abstraction_command abstraction.now) }
    ensures reader { IfOk result (λ both. both.reader ≡ accessor_rec image.now.names class (getter_tree abstraction.now)) }
    ensures writer { IfOk result (λ both. both.writer ≡ accessor_rec image.now.names class (setter_tree abstraction.now)) }
{
    let reads = getter(alloc, abstraction.variable)?;
    let writes = setter(
        alloc,
        abstraction.variable,
        abstraction.setter,
        abstraction.parameter,
    )?;
    Ok(AccessorRecs {
        reader: accessor(alloc, image, class, reads)?,
        writer: accessor(alloc, image, class, writes)?,
    })
}

/// Room for the getter and the setter, and the changes by which the variable is read and assigned by messages: one of each
/// method and do-it that means it, and then these two methods come, as the last ones. Only code that mentions the name is
/// opened, each once. On want of memory the image shows the same.
#[tactic(auto, using(method_plans::proofs::Added::wider_same))]
pub fn plan_abstraction<L: Ledger>(
    alloc: Global,
    image: &mut Image,
    index: &Index,
    abstraction: &Abstraction,
    steps: &mut Steps<L>,
) -> Result<Plan, Memory>
    requires closed { IsClosed image.old }
    requires orderly { IsOrderly image.old }
    requires index { IsIndexOf image.old index.now }
    requires known { CommandNames (λ n. n < length image.old.names) (abstraction_command abstraction.now) }
    requires is_self { abstraction.now.self_name ≡ (asked_by image.old.names).self_name }
    requires self_known { abstraction.now.self_name < length image.old.names }
    requires holds { first_false (asked_by image.old.names) (number_image image.old) (abstraction_command abstraction.now) ≡ None }
    ensures wider { Wider image.old image.new }
    ensures names { image.new.names ≡ image.old.names }
    ensures plan { IfOk result (λ found. IsPlan image.new (abstraction_command abstraction.now) found.changes found.touched.items) }
{
    law_known();
    // The class is one of the user, so it is found.
    let Some(class) = image.class_named(abstraction.class) else {
        return Ok(Plan {
            changes: Changes::new(alloc),
            touched: Vec::new(alloc),
        });
    };
    let place = image.methods().len();
    let Some(last) = place.checked_add(1) else {
        return Err(Memory);
    };
    let mut plan = code_changes(alloc, image, index, abstraction, steps)?;
    let AccessorRecs { reader, writer } = accessors(alloc, image, class, abstraction)?;
    let Ok(first) = room_for_method(image, reader) else {
        return Err(Memory);
    };
    let Ok(second) = room_for_method(image, writer) else {
        return Err(Memory);
    };
    put_live(&mut plan, first, Some(place))?;
    put_live(&mut plan, second, Some(last))?;
    Ok(plan)
}
