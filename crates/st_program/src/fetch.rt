// Methods and do-its of an image, read without a count of steps.
ghost use Rattle.std.specs.Prelude.{◌≡◌, ◌<◌, slice_get, option_map, option_copied};
ghost use Rattle.class_table.specs.declared.record.MethodRec.{MethodRec};
ghost use Rattle.class_table.specs.declared.record.DoIt.{DoIt};
ghost use Rattle.class_table.specs.View.{live_at};

use class_table::{Image, MethodSlot};
use rb_base::Steps;
use st_tree::{Method, Sequence};
use std::marker::Brand;
use std::sync::ledger::{Blank, Ledger};

fn counted_tree<L: Ledger>(image: &Image, slot: MethodSlot, blank: Blank) -> Option<&Method>
    requires name { blank.name ≡ L.name }
    requires parts { blank.parts ≡ L.parts }
    requires some { 0 < L.parts }
    ensures { option_copied result ≡ option_map (λ (m : MethodRec). m.tree) (live_at image.now.methods image.now.method_order slot) }
{
    let mut steps = Steps::<L>::new(blank);
    image.open_body(slot, &mut steps)
}

fn counted_body<L: Ledger>(image: &Image, number: usize, blank: Blank) -> Option<&Sequence>
    requires name { blank.name ≡ L.name }
    requires parts { blank.parts ≡ L.parts }
    requires some { 0 < L.parts }
    ensures { option_copied result ≡ option_map (λ (d : DoIt). d.body) (slice_get image.now.doits number) }
{
    let mut steps = Steps::<L>::new(blank);
    image.open_doit(number, &mut steps)
}

/// The tree of the method in a slot, if the slot is live.
pub(crate) fn tree_at(image: &Image, slot: MethodSlot) -> Option<&Method>
    ensures { option_copied result ≡ option_map (λ (m : MethodRec). m.tree) (live_at image.now.methods image.now.method_order slot) }
{
    counted_tree::<Brand>(image, slot, Blank::new(1))
}

/// The body of the do-it of a number, from 0, if there are so many.
pub(crate) fn body_at(image: &Image, number: usize) -> Option<&Sequence>
    ensures { option_copied result ≡ option_map (λ (d : DoIt). d.body) (slice_get image.now.doits number) }
{
    counted_body::<Brand>(image, number, Blank::new(1))
}
