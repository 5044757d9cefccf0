// The change of the code at a place.
ghost use Rattle.std.specs.Prelude.{◌≡◌, ◌<◌, length, nat_eq, ◌||◌, IfOk};
ghost use Rattle.std.specs.List.{list_any};
ghost use Rattle.tree_model.specs.Nodes.{nodes};
ghost use Rattle.st_tree.specs.View.{sequence_of, method_of};
ghost use Rattle.image_model.specs.Uses.{is_sender};
ghost use Rattle.class_table.specs.declared.record.Place.TheVariants as places;
ghost use Rattle.class_table.specs.Valid.{IsOrderly};
ghost use Rattle.command_numbers.specs.CommandNames.{CommandNames};
ghost use Rattle.parameter_plans.specs.Given.{parameter_command, remaking_of};
ghost use Rattle.remade_plans.specs.Remade.{change_at};

use crate::given::ParameterChange;
use crate::laws::law_known;
use change_set::Change;
use class_table::{DoIt, Image, MethodRec, MethodSlot, Place};
use mentions::nodes_of;
use node_questions::sends;
use rb_base::{Memory, NameId, Steps, Text};
use remade_code::remake_doit;
use st_formatter::{format_doit, format_method};
use st_tree::{Method, Sequence, try_copy, try_copy_doit};
use std::alloc::Global;
use std::sync::ledger::Ledger;

/// Whether a node of the body sends the selector.
fn is_sent(alloc: Global, body: &Sequence, selector: NameId) -> Result<bool, Memory>
    ensures { IfOk result (λ sent. sent ≡ list_any (λ e. is_sender nat_eq selector e.1) (nodes (sequence_of body.now))) }
{
    let nodes = nodes_of(alloc, body)?;
    for node in nodes.as_slice() {
        if sends(*node, selector) {
            return Ok(true);
        }
    }
    Ok(false)
}

/// Whether the method has the selector, or a node of it sends it.
fn speaks_of(alloc: Global, method: &Method, selector: NameId) -> Result<bool, Memory>
    ensures { IfOk result (λ spoken. spoken ≡ (nat_eq selector method.now.selector || list_any (λ e. is_sender nat_eq selector e.1) (nodes (sequence_of method.now.body)))) }
{
    if selector == method.selector {
        return Ok(true);
    }
    is_sent(alloc, &method.body, selector)
}

/// The change of the method in a slot.
fn method_change<L: Ledger>(
    alloc: Global,
    image: &Image,
    slot: MethodSlot,
    parameter: &ParameterChange<'_>,
    steps: &mut Steps<L>,
) -> Result<Option<Change>, Memory>
    requires orderly { IsOrderly image.now }
    requires known { CommandNames (λ n. n < length image.now.names) (parameter_command parameter.now) }
    ensures { IfOk result (λ found. found ≡ change_at image.now (remaking_of parameter.now) (places.Method slot)) }
{
    law_known();
    let Some(info) = image.method_info(slot) else {
        return Ok(None);
    };
    let Some(tree) = image.open_body(slot, steps) else {
        return Ok(None);
    };
    let spoken = speaks_of(alloc, tree, parameter.selector())?;
    if !spoken {
        return Ok(None);
    }
    let mut tree = try_copy(alloc, tree)?;
    parameter.change_method(alloc, &mut tree)?;
    let mut source = Text::new(alloc);
    format_method(alloc, &tree, image.names(), &mut source)?;
    let rec = MethodRec {
        class: info.class,
        meta: info.meta,
        protocol: Text::from_slice(alloc, info.protocol)?,
        source,
        tree,
        kernel: info.kernel,
    };
    Ok(Some(Change::Method { slot, rec }))
}

/// The change of the do-it of a number.
fn doit_change<L: Ledger>(
    alloc: Global,
    image: &Image,
    number: usize,
    parameter: &ParameterChange<'_>,
    steps: &mut Steps<L>,
) -> Result<Option<Change>, Memory>
    requires orderly { IsOrderly image.now }
    requires known { CommandNames (λ n. n < length image.now.names) (parameter_command parameter.now) }
    ensures { IfOk result (λ found. found ≡ change_at image.now (remaking_of parameter.now) (places.DoIt number)) }
{
    law_known();
    let Some(body) = image.open_doit(number, steps) else {
        return Ok(None);
    };
    let sent = is_sent(alloc, body, parameter.selector())?;
    if !sent {
        return Ok(None);
    }
    let mut body = try_copy_doit(alloc, body)?;
    remake_doit(alloc, parameter, &mut body)?;
    let mut source = Text::new(alloc);
    format_doit(alloc, &body, image.names(), &mut source)?;
    let doit = DoIt { source, body };
    Ok(Some(Change::DoIt { number, doit }))
}

/// The change of the code at a place, if it has or sends the selector. The source of changed code is its canonical text. Opens
/// the code once.
pub(crate) fn code_change<L: Ledger>(
    alloc: Global,
    image: &Image,
    place: Place,
    parameter: &ParameterChange<'_>,
    steps: &mut Steps<L>,
) -> Result<Option<Change>, Memory>
    requires orderly { IsOrderly image.now }
    requires known { CommandNames (λ n. n < length image.now.names) (parameter_command parameter.now) }
    ensures { IfOk result (λ found. found ≡ change_at image.now (remaking_of parameter.now) place) }
{
    match place {
        Place::Method(slot) => method_change(alloc, image, slot, parameter, steps),
        Place::DoIt(number) => doit_change(alloc, image, number, parameter, steps),
    }
}
