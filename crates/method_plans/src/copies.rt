// Copies of methods.
ghost use Rattle.std.specs.Prelude.{◌≡◌, ◌<◌, IfOk};
ghost use Rattle.method_plans.specs.Named.{moved_to};

use class_table::{ClassId, Image, MethodRec, MethodSlot};
use rb_base::{Memory, Steps, Text};
use st_tree::try_copy;
use std::alloc::Global;
use std::marker::Brand;
use std::sync::ledger::{Blank, Ledger};

fn counted_copy<L: Ledger>(
    alloc: Global,
    image: &Image,
    slot: MethodSlot,
    class: ClassId,
    blank: Blank,
) -> Result<Option<MethodRec>, Memory>
    requires name { blank.name ≡ L.name }
    requires parts { blank.parts ≡ L.parts }
    requires some { 0 < L.parts }
    ensures { IfOk result (λ found. found ≡ moved_to image.now class slot) }
{
    let mut steps = Steps::<L>::new(blank);
    let Some(tree) = image.open_body(slot, &mut steps) else {
        return Ok(None);
    };
    let Some(info) = image.method_info(slot) else {
        return Ok(None);
    };
    Ok(Some(MethodRec {
        class,
        meta: info.meta,
        protocol: Text::from_slice(alloc, info.protocol)?,
        source: Text::from_slice(alloc, info.source)?,
        tree: try_copy(alloc, tree)?,
        kernel: info.kernel,
    }))
}

/// A copy of the method in a slot, if the slot is live, as one of another class.
pub fn copy_for(
    alloc: Global,
    image: &Image,
    slot: MethodSlot,
    class: ClassId,
) -> Result<Option<MethodRec>, Memory>
    ensures { IfOk result (λ found. found ≡ moved_to image.now class slot) }
{
    counted_copy::<Brand>(alloc, image, slot, class, Blank::new(1))
}
