// Changes of classes.
ghost use Rattle.std.specs.Prelude.{◌≡◌, ℕ, ◌||◌, None, is_some, nat_eq, IfNone, IfSome, IfOk, OnOk};
ghost use Rattle.file_model.specs.Causes.{first_cause};
ghost use Rattle.file_model.specs.Hierarchy.{has_class};
ghost use Rattle.file_model.specs.Refusals.{comment_refusals, class_side_refusals};
ghost use Rattle.file_model.specs.Applied.{with_comment, with_class_side};
ghost use Rattle.image_draft.specs.Early.{told, early_side_refusals};
ghost use Rattle.image_draft.specs.Names.{NamesDiffer, AreOrdered};
ghost use Rattle.image_draft.specs.Once.{AreSound};
ghost use Rattle.image_draft.specs.Owners.{AreOwned};

use crate::class_list::ClassList;
use crate::kept::keeps_side;
use crate::owners::Owners;
use crate::refusals::{comment_refusal, early_side_refusal, late_side_refusal};
use file_faults::ImageCause;
use rb_base::{Ids, Memory, NameId, Text};
use std::alloc::Global;

/// Gives the class of a name another comment, or tells why it can not be given.
pub fn change_comment(classes: &mut ClassList, name: NameId, comment: Text) -> Option<ImageCause>
    requires { NamesDiffer classes.old }
    ensures cause { told result ≡ first_cause (comment_refusals nat_eq classes.old name) }
    ensures some { is_some result ≡ is_some (first_cause (comment_refusals nat_eq classes.old name)) }
    ensures changed { IfNone result (classes.new ≡ with_comment nat_eq name comment classes.old) }
    ensures kept { IfSome result (λ _. classes.new ≡ classes.old) }
    ensures sound { AreSound classes.old → AreSound classes.new }
    ensures owned { (owners : Owners) → AreOwned owners classes.old → AreOwned owners classes.new }
    ensures names { (n : ℕ) → has_class nat_eq classes.new n ≡ has_class nat_eq classes.old n }
{
    let refusal = comment_refusal(classes, name);
    if refusal.is_some() {
        return refusal;
    }
    put_comment(classes, name, comment);
    None
}

/// Gives the class of a name, if there is one, another comment.
fn put_comment(classes: &mut ClassList, name: NameId, comment: Text)
    requires { NamesDiffer classes.old }
    ensures changed { classes.new ≡ with_comment nat_eq name comment classes.old }
    ensures sound { AreSound classes.old → AreSound classes.new }
    ensures owned { (owners : Owners) → AreOwned owners classes.old → AreOwned owners classes.new }
    ensures names { (n : ℕ) → has_class nat_eq classes.new n ≡ has_class nat_eq classes.old n }
{
    if let Some(place) = classes.place(name) {
        classes.set_comment(place, comment);
    }
}

/// Gives the class of a name, if there is one, other class-instance variables.
fn put_class_side(classes: &mut ClassList, name: NameId, names: Ids)
    requires { NamesDiffer classes.old }
    ensures changed { classes.new ≡ with_class_side nat_eq name names classes.old }
    ensures order { AreOrdered classes.old → AreOrdered classes.new }
    ensures names { (n : ℕ) → has_class nat_eq classes.new n ≡ has_class nat_eq classes.old n }
{
    if let Some(place) = classes.place(name) {
        classes.set_class_side(place, names);
    }
}

/// Whether one of two tests passed.
fn is_either(first: bool, second: bool) -> bool
    ensures { result ≡ (first || second) }
{
    first || second
}

/// Gives the class of a name other class-instance variables, or tells why it can not have them; then, and on want of
/// memory, no class may be left.
pub fn change_class_side(
    alloc: Global,
    classes: &mut ClassList,
    owners: &mut Owners,
    name: NameId,
    names: Ids,
) -> Result<Option<ImageCause>, Memory>
    requires sound { AreSound classes.old }
    requires owned { AreOwned owners.old classes.old }
    ensures cause { IfOk result (λ cause. told cause ≡ first_cause (class_side_refusals nat_eq classes.old name names (with_class_side nat_eq name names classes.old))) }
    ensures some { IfOk result (λ cause. is_some cause ≡ is_some (first_cause (class_side_refusals nat_eq classes.old name names (with_class_side nat_eq name names classes.old)))) }
    ensures changed { IfOk result (λ cause. IfNone cause (classes.new ≡ with_class_side nat_eq name names classes.old)) }
    ensures sound { AreSound classes.new }
    ensures owned { AreOwned owners.new classes.new }
    ensures names { IfOk result (λ cause. IfNone cause ((n : ℕ) → has_class nat_eq classes.new n ≡ has_class nat_eq classes.old n)) }
{
    let refusal = early_side_refusal(classes, name, names.as_slice());
    if refusal.is_some() {
        return Ok(refusal);
    }
    match make_class_side(alloc, classes, owners, name, names) {
        Ok(None) => Ok(None),
        refused => {
            classes.take_all();
            refused
        }
    }
}

/// Gives the class of a name other class-instance variables that the classes before it do not refuse, or tells why the classes
/// with them refuse them.
fn make_class_side(
    alloc: Global,
    classes: &mut ClassList,
    owners: &mut Owners,
    name: NameId,
    names: Ids,
) -> Result<Option<ImageCause>, Memory>
    requires sound { AreSound classes.old }
    requires owned { AreOwned owners.old classes.old }
    requires free { first_cause (early_side_refusals classes.old name names) ≡ None }
    ensures cause { IfOk result (λ cause. told cause ≡ first_cause (class_side_refusals nat_eq classes.old name names (with_class_side nat_eq name names classes.old))) }
    ensures some { IfOk result (λ cause. is_some cause ≡ is_some (first_cause (class_side_refusals nat_eq classes.old name names (with_class_side nat_eq name names classes.old)))) }
    ensures changed { OnOk result (classes.new ≡ with_class_side nat_eq name names classes.old) }
    ensures sound { IfOk result (λ cause. IfNone cause (AreSound classes.new)) }
    ensures owned { OnOk result (AreOwned owners.new classes.new) }
    ensures names { OnOk result ((n : ℕ) → has_class nat_eq classes.new n ≡ has_class nat_eq classes.old n) }
{
    let kept = keeps_side(classes, name, names.as_slice());
    let apart = owners.note_side(alloc, name, names.as_slice())?;
    put_class_side(classes, name, names);
    late_side_refusal(alloc, classes, name, is_either(kept, apart))
}
