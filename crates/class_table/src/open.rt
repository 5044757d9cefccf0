// The trees of an image, each opening of which counts one step.
ghost use Rattle.std.specs.Prelude.{◌≡◌, ◌+◌, slice_get, option_map, option_copied};
ghost use Rattle.class_table.specs.declared.record.MethodRec.{MethodRec};
ghost use Rattle.class_table.specs.declared.record.DoIt.{DoIt};
ghost use Rattle.class_table.specs.View.{live_at};

use crate::image::Image;
use crate::record::MethodSlot;
use rb_base::Steps;
use st_tree::{Method, Sequence};
use std::sync::ledger::Ledger;

impl Image {
    /// The tree of the method in a slot, if the slot is live. Counts one step.
    pub fn open_body<L: Ledger>(&self, slot: MethodSlot, steps: &mut Steps<L>) -> Option<&Method>
        ensures tree { option_copied result ≡ option_map (λ (m : MethodRec). m.tree) (live_at self.now.methods self.now.method_order slot) }
        ensures step { steps.new ≡ steps.old + 1 }
    {
        steps.tick();
        if !self.method_order.is_live(slot) {
            return None;
        }
        let rec = self.methods.get(slot.0)?;
        Some(&rec.tree)
    }

    /// The body of the do-it of a number, from 0, if there are so many. Counts one step.
    pub fn open_doit<L: Ledger>(&self, number: usize, steps: &mut Steps<L>) -> Option<&Sequence>
        ensures body { option_copied result ≡ option_map (λ (d : DoIt). d.body) (slice_get self.now.doits number) }
        ensures step { steps.new ≡ steps.old + 1 }
    {
        steps.tick();
        let doit = self.doits.get(number)?;
        Some(&doit.body)
    }
}
