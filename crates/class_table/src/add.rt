// New slots and do-its of an image.
ghost use Rattle.std.specs.Prelude.{◌≡◌, ◌∷◌, ◌++◌, [], length, IfOk, IfErr, OnOk, OnErr};

use crate::image::Image;
use crate::record::{ClassId, ClassRec, DoIt, MethodRec, MethodSlot};
use crate::room::push_in_room;
use crate::tables::MethodKey;

impl Image {
    /// Adds a class in a new slot, which is live and last. The error is want of memory and hands the class back.
    #[tactic(auto, using(crate::proofs::Known::before_classes, crate::proofs::Known::added_classes))]
    pub fn add_class(&mut self, rec: ClassRec) -> Result<ClassId, ClassRec>
        ensures slot { IfOk result (λ id. id ≡ length self.old.classes) }
        ensures ok { OnOk result (self.new ≡ record self.old { classes = self.old.classes ++ rec ∷ []; class_order = self.old.class_order ++ length self.old.classes ∷ [] }) }
        ensures err { OnErr result (self.new ≡ self.old) }
        ensures back { IfErr result (λ again. again ≡ rec) }
    {
        if self.classes.reserve(1).is_err() {
            return Err(rec);
        }
        match self.class_order.add() {
            Err(_) => Err(rec),
            Ok(id) => {
                self.by_name
                    .enter(&self.classes, &self.class_order, id, rec.name);
                push_in_room(&mut self.classes, rec);
                Ok(id)
            }
        }
    }

    /// Adds a method in a new slot, which is live and last. The error is want of memory and hands the method back.
    #[tactic(auto, using(crate::proofs::Known::before_methods, crate::proofs::Known::added_methods))]
    pub fn add_method(&mut self, rec: MethodRec) -> Result<MethodSlot, MethodRec>
        ensures slot { IfOk result (λ slot. slot ≡ length self.old.methods) }
        ensures ok { OnOk result (self.new ≡ record self.old { methods = self.old.methods ++ rec ∷ []; method_order = self.old.method_order ++ length self.old.methods ∷ [] }) }
        ensures err { OnErr result (self.new ≡ self.old) }
        ensures back { IfErr result (λ again. again ≡ rec) }
    {
        if self.methods.reserve(1).is_err() {
            return Err(rec);
        }
        match self.method_order.add() {
            Err(_) => Err(rec),
            Ok(slot) => {
                self.by_key.add(&self.methods, &self.method_order, slot, MethodKey::of(&rec));
                push_in_room(&mut self.methods, rec);
                Ok(slot)
            }
        }
    }

    /// Adds a do-it at the end. The error is want of memory and hands the do-it back.
    pub fn add_doit(&mut self, doit: DoIt) -> Result<(), DoIt>
        ensures ok { OnOk result (self.new ≡ record self.old { doits = self.old.doits ++ doit ∷ [] }) }
        ensures err { OnErr result (self.new ≡ self.old) }
        ensures back { IfErr result (λ again. again ≡ doit) }
    {
        if self.doits.reserve(1).is_err() {
            return Err(doit);
        }
        push_in_room(&mut self.doits, doit);
        Ok(())
    }
}
