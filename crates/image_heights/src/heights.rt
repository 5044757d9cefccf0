// Whether code is low enough to be changed.
ghost use Rattle.std.specs.Prelude.{◌≡◌};
ghost use Rattle.class_table.specs.View.{image_of};
ghost use Rattle.command_model.specs.ParameterConditions as model;
ghost use Rattle.image_heights.specs.Low.{is_low_method};

use crate::levels::is_high;
use class_table::{Image, MethodSlot};
use rb_base::Steps;
use std::sync::ledger::Ledger;

/// Whether the method in a slot, if the slot is live, is one of the kernel or at most 200 nodes high.
fn is_low_method<L: Ledger>(image: &Image, slot: MethodSlot, steps: &mut Steps<L>) -> bool
    ensures { result ≡ is_low_method image.now slot }
{
    let Some(info) = image.method_info(slot) else {
        return true;
    };
    if info.kernel {
        return true;
    }
    match image.open_body(slot, steps) {
        None => true,
        Some(tree) => !is_high(&tree.body),
    }
}

/// Whether each method of the user and each do-it is at most 200 nodes high. Opens each of these trees once.
pub fn is_shallow<L: Ledger>(image: &Image, steps: &mut Steps<L>) -> bool
    ensures { result ≡ model.is_shallow (image_of image.now) }
{
    for slot in image.methods() {
        if !is_low_method(image, *slot, steps) {
            return false;
        }
    }
    for number in 0..image.doits() {
        if let Some(body) = image.open_doit(number, steps) {
            if is_high(body) {
                return false;
            }
        }
    }
    true
}
