// Parts of an image that are lent to be written.
ghost use Rattle.std.specs.Prelude.{◌≡◌, ◌+◌, slice_get, option_map};
ghost use Rattle.std.specs.Option.{option_copied_mut};
ghost use Rattle.std.specs.Borrow.{sem};
ghost use Rattle.class_table.specs.declared.record.MethodRec.{MethodRec};
ghost use Rattle.class_table.specs.declared.record.DoIt.{DoIt};
ghost use Rattle.class_table.specs.View.{live_at};
ghost use Rattle.class_table.specs.Lending.{LendsNames, LendsTreeIf, LendsBodyIf};

use crate::image::Image;
use crate::record::MethodSlot;
use rb_base::{Names, Steps};
use st_tree::{Method, Sequence};
use std::sync::ledger::Ledger;

impl Image {
    /// The names, to be added to.
    pub fn names_mut(&mut self) -> &mut Names
        ensures* writes_back { sem 𝓛 (LendsNames self.entry result) }
        ensures value { result.now ≡ self.old.names }
    {
        &mut self.names
    }

    /// The body of the do-it of a number, from 0, to be written, if there are so many. Counts one step.
    pub fn open_doit_mut<L: Ledger>(
        &mut self,
        number: usize,
        steps: &mut Steps<L>,
    ) -> Option<&mut Sequence>
        ensures* writes_back { sem 𝓛 (LendsBodyIf self.entry number result) }
        ensures body { option_copied_mut result ≡ option_map (λ (d : DoIt). d.body) (slice_get self.old.doits number) }
        ensures step { steps.new ≡ steps.old + 1 }
    {
        steps.tick();
        let doit = self.doits.get_mut(number)?;
        Some(&mut doit.body)
    }

    /// The tree of the method in a slot, to be written, if the slot is live. Counts one step.
    #[tactic(auto, using(crate::proofs::Known::lent_methods))]
    pub fn open_body_mut<L: Ledger>(
        &mut self,
        slot: MethodSlot,
        steps: &mut Steps<L>,
    ) -> Option<&mut Method>
        ensures* writes_back { sem 𝓛 (LendsTreeIf self.entry slot result) }
        ensures tree { option_copied_mut result ≡ option_map (λ (m : MethodRec). m.tree) (live_at self.old.methods self.old.method_order slot) }
        ensures step { steps.new ≡ steps.old + 1 }
    {
        steps.tick();
        if !self.method_order.is_live(slot) {
            return None;
        }
        self.by_key.lend(&self.methods, &self.method_order, slot);
        let rec = self.methods.get_mut(slot.0)?;
        Some(&mut rec.tree)
    }
}
