// Methods with another tree.
ghost use Rattle.std.specs.Prelude.{◌≡◌, ◌<◌, ◌∷◌, [], ◌++◌, length, IfOk, OnOk};
ghost use Rattle.std.specs.Option.{option_map_or};
ghost use Rattle.tree_model.specs.AllNames.{MethodNames};
ghost use Rattle.st_tree.specs.View.{method_of};
ghost use Rattle.class_table.specs.declared.record.MethodRec.{MethodRec};
ghost use Rattle.class_table.specs.declared.record.Place.TheVariants as places;
ghost use Rattle.change_set.specs.declared.change.Change.TheVariants as change;
ghost use Rattle.temporary_plans.specs.Retold as model;

use change_set::Change;
use class_table::{Image, MethodRec, MethodSlot, Place};
use plans::Plan;
use rb_base::{Memory, Steps, Text};
use st_formatter::format_method;
use st_tree::{Method, try_copy};
use std::alloc::Global;
use std::sync::ledger::Ledger;
use temporary_code::same_code;

/// The method in a slot with another tree, whose canonical text is the source, if the slot is live and the tree is not the
/// same but for comments. Counts one step.
fn retold<L: Ledger>(
    alloc: Global,
    image: &Image,
    slot: MethodSlot,
    tree: &Method,
    steps: &mut Steps<L>,
) -> Result<Option<MethodRec>, Memory>
    requires known { MethodNames (λ n. n < length image.now.names) (method_of tree.now) }
    ensures { IfOk result (λ found. found ≡ model.retold_at image.now tree.now slot) }
{
    let Some(info) = image.method_info(slot) else {
        return Ok(None);
    };
    let Some(old) = image.open_body(slot, steps) else {
        return Ok(None);
    };
    if same_code(alloc, old, tree)? {
        return Ok(None);
    }
    let mut source = Text::new(alloc);
    format_method(alloc, tree, image.names(), &mut source)?;
    Ok(Some(MethodRec {
        class: info.class,
        meta: info.meta,
        protocol: Text::from_slice(alloc, info.protocol)?,
        source,
        tree: try_copy(alloc, tree)?,
        kernel: info.kernel,
    }))
}

/// Puts the change by which the method in a slot has another tree at the end, and its place, if it is another tree.
pub fn put_retold<L: Ledger>(
    alloc: Global,
    image: &Image,
    slot: MethodSlot,
    tree: &Method,
    plan: &mut Plan,
    steps: &mut Steps<L>,
) -> Result<(), Memory>
    requires known { MethodNames (λ n. n < length image.now.names) (method_of tree.now) }
    ensures changes { OnOk result (plan.new.changes ≡ plan.old.changes ++ option_map_or (λ (m : MethodRec). change.Method slot m ∷ []) (model.retold_at image.now tree.now slot) []) }
    ensures touched { OnOk result (plan.new.touched.items ≡ plan.old.touched.items ++ option_map_or (λ (m : MethodRec). places.Method slot ∷ []) (model.retold_at image.now tree.now slot) []) }
{
    if let Some(rec) = retold(alloc, image, slot, tree, steps)? {
        plan.changes.push(Change::Method { slot, rec })?;
        plan.touched.push(Place::Method(slot))?;
    }
    Ok(())
}
