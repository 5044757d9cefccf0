// Changes of an image that take no memory.
ghost use Rattle.std.specs.Prelude.{◌≡◌, ◌<◌, length, slice_get, slice_set, Some};
ghost use Rattle.class_table.specs.Changing.{HasSlot, HasRoomAt, former_place, with_live, HasPlace, with_source, source_in};

use crate::image::Image;
use crate::record::{ClassId, ClassRec, DoIt, MethodRec, MethodSlot, Place, Slot};
use crate::tables::MethodKey;
use rb_base::Text;

impl Image {
    /// Swaps the class in a slot, live or not, with another.
    #[tactic(auto, using(crate::proofs::Known::swapped_classes))]
    pub fn swap_class(&mut self, id: ClassId, rec: &mut ClassRec)
        requires { id < length self.old.classes }
        ensures image { self.new ≡ record self.old { classes = slice_set self.old.classes id rec.old } }
        ensures former { slice_get self.old.classes id ≡ Some rec.new }
    {
        self.by_name
            .rename(&self.classes, &self.class_order, id, rec.name);
        std::mem::swap(&mut self.classes[id.0], rec);
    }

    /// Swaps the method in a slot, live or not, with another.
    #[tactic(auto, using(crate::proofs::Known::swapped_methods))]
    pub fn swap_method(&mut self, slot: MethodSlot, rec: &mut MethodRec)
        requires { slot < length self.old.methods }
        ensures image { self.new ≡ record self.old { methods = slice_set self.old.methods slot rec.old } }
        ensures former { slice_get self.old.methods slot ≡ Some rec.new }
    {
        self.by_key.rename(&self.methods, &self.method_order, slot, MethodKey::of(rec));
        std::mem::swap(&mut self.methods[slot.0], rec);
    }

    /// Swaps the do-it of a number with another.
    pub fn swap_doit(&mut self, number: usize, doit: &mut DoIt)
        requires { number < length self.old.doits }
        ensures image { self.new ≡ record self.old { doits = slice_set self.old.doits number doit.old } }
        ensures former { slice_get self.old.doits number ≡ Some doit.new }
    {
        std::mem::swap(&mut self.doits[number], doit);
    }

    /// Swaps the source alone of a method, live or not, or of a do-it.
    #[tactic(auto, using(crate::proofs::Known::sourced_methods))]
    pub fn swap_source(&mut self, place: Place, source: &mut Text)
        requires { HasPlace self.old place }
        ensures image { self.new ≡ with_source self.old place source.old }
        ensures former { source_in self.old place ≡ Some source.new }
    {
        match place {
            Place::Method(slot) => {
                let rec = &mut self.methods[slot.0];
                std::mem::swap(&mut rec.source, source);
            }
            Place::DoIt(number) => {
                let doit = &mut self.doits[number];
                std::mem::swap(&mut doit.source, source);
            }
        }
    }

    /// Puts a slot at a place of the order of the live ones, or takes it out, and answers its former place.
    #[tactic(auto, using(crate::proofs::Known::placed_at))]
    pub fn set_live(&mut self, what: Slot, place: Option<usize>) -> Option<usize>
        requires there { HasSlot self.old what }
        requires within { HasRoomAt self.old what place }
        ensures former { result ≡ former_place self.old what }
        ensures image { self.new ≡ with_live self.old what place }
    {
        match what {
            Slot::Class(id) => {
                self.by_name
                    .place(&self.classes, &self.class_order, id, place);
                self.class_order.set_live(id, place)
            }
            Slot::Method(slot) => {
                self.by_key
                    .place(&self.methods, &self.method_order, slot, place);
                self.method_order.set_live(slot, place)
            }
        }
    }
}
