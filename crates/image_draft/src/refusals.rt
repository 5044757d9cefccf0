// Why changes are refused.
ghost use Rattle.std.specs.Prelude.{◌≡◌, ◌∷◌, ◌||◌, [], Some, is_some, false, true, nat_eq, IfNone, IfOk};
ghost use Rattle.std.specs.Option.{option_map_or};
ghost use Rattle.image_model.specs.Chain.{chain};
ghost use Rattle.file_model.specs.Causes.{first_cause};
ghost use Rattle.file_model.specs.Refusals as refusals;
ghost use Rattle.file_model.specs.Hierarchy as hierarchy;
ghost use Rattle.file_model.specs.Hierarchy.{stands_twice};
ghost use Rattle.image_model.specs.Means.{of_instance, of_class_side};
ghost use Rattle.image_draft.specs.Kinds.{kind_of};
ghost use Rattle.image_draft.specs.Alone.{IsChildless};
ghost use Rattle.image_draft.specs.Names.{AreOrdered};
ghost use Rattle.image_draft.specs.Once.{StaysUnder};
ghost use Rattle.image_draft.specs.Parts.{PartsOnce};
ghost use Rattle.image_draft.specs.Early.{told, early_refusals, late_refusals, early_side_refusals, late_side_refusals};

use crate::class_draft::Definition;
use crate::class_list::ClassList;
use crate::found::{has_class, has_subclass, is_kernel_class};
use crate::hierarchy::{ChainKind, stands_above, stands_twice};
use crate::kept::KeptChains;
use crate::standing::Standing;
use file_faults::ImageCause;
use rb_base::{Memory, NameId};
use std::alloc::Global;

/// How many classes there may be, those of the kernel among them.
const CLASS_LIMIT: usize = 10_000;

/// Whether the superclass that a definition names is no class.
fn lacks_superclass(classes: &ClassList, definition: &Definition) -> bool
    ensures { result ≡ refusals.lacks_superclass nat_eq classes.now definition.now }
{
    match definition.superclass {
        None => false,
        Some(above) => !has_class(classes, above),
    }
}

/// Whether a class is new, and there are as many as there may be.
pub fn is_one_class_too_many(classes: &ClassList, name: NameId) -> bool
    ensures { result ≡ refusals.is_one_class_too_many nat_eq classes.now name }
{
    !has_class(classes, name) && CLASS_LIMIT <= classes.len()
}

/// Whether the class of one name stands before that of another; then that other one does not stand above it.
fn stands_before(classes: &ClassList, class: NameId, name: NameId) -> bool
    requires { AreOrdered classes.now }
    ensures { result ≡ true → hierarchy.stands_in nat_eq name (chain nat_eq classes.now (Some class)) ≡ false }
{
    let Some(first) = classes.place(class) else {
        return false;
    };
    let Some(second) = classes.place(name) else {
        return false;
    };
    first < second
}

/// Whether the class of a name is that of another or stands above it.
fn is_above(classes: &ClassList, name: NameId, class: Option<NameId>) -> bool
    requires { AreOrdered classes.now }
    ensures { result ≡ hierarchy.stands_in nat_eq name (chain nat_eq classes.now class) }
{
    match class {
        None => false,
        Some(class) => {
            !stands_before(classes, class, name) && stands_above(classes, name, Some(class))
        }
    }
}

/// Whether a definition names its own class as the superclass.
fn names_itself(definition: &Definition) -> bool
    ensures { result ≡ option_map_or (nat_eq definition.now.name) definition.now.superclass false }
{
    match definition.superclass {
        None => false,
        Some(above) => definition.name == above,
    }
}

/// Whether the class of a definition would stand above itself: no class does that is new or keeps its superclass, and one
/// that is the superclass of none does only as its own superclass.
fn makes_cycle(classes: &ClassList, definition: &Definition, standing: Standing) -> bool
    requires order { AreOrdered classes.now }
    requires stays { standing.stays ≡ true → StaysUnder classes.now definition.now }
    requires childless { standing.childless ≡ true → IsChildless classes.now definition.now.name }
    ensures { result ≡ refusals.makes_cycle nat_eq classes.now definition.now }
{
    if standing.stays {
        return false;
    }
    if standing.childless {
        return names_itself(definition);
    }
    is_above(classes, definition.name, definition.superclass)
}

/// Why a definition is refused by the classes before it.
pub fn early_refusal(
    classes: &ClassList,
    definition: &Definition,
    standing: Standing,
) -> Option<ImageCause>
    requires order { AreOrdered classes.now }
    requires stays { standing.stays ≡ true → StaysUnder classes.now definition.now }
    requires childless { standing.childless ≡ true → IsChildless classes.now definition.now.name }
    ensures cause { told result ≡ first_cause (early_refusals classes.now definition.now) }
    ensures some { is_some result ≡ is_some (first_cause (early_refusals classes.now definition.now)) }
{
    if is_kernel_class(classes, definition.name) {
        return Some(ImageCause::KernelReplaced);
    }
    if lacks_superclass(classes, definition) {
        return Some(ImageCause::UnknownSuperclass);
    }
    if makes_cycle(classes, definition, standing) {
        return Some(ImageCause::Cycle);
    }
    None
}

/// Why the comment of a class is refused.
pub fn comment_refusal(classes: &ClassList, name: NameId) -> Option<ImageCause>
    ensures cause { told result ≡ first_cause (refusals.comment_refusals nat_eq classes.now name) }
    ensures some { is_some result ≡ is_some (first_cause (refusals.comment_refusals nat_eq classes.now name)) }
{
    if !has_class(classes, name) {
        return Some(ImageCause::UnknownClass);
    }
    if is_kernel_class(classes, name) {
        return Some(ImageCause::KernelReplaced);
    }
    None
}

/// Why the removal of a class is refused.
pub fn class_removal_refusal(classes: &ClassList, name: NameId) -> Option<ImageCause>
    requires { AreOrdered classes.now }
    ensures cause { told result ≡ first_cause (refusals.class_removal_refusals nat_eq classes.now name) }
    ensures some { is_some result ≡ is_some (first_cause (refusals.class_removal_refusals nat_eq classes.now name)) }
    ensures free { IfNone result (hierarchy.has_subclass nat_eq classes.now name ≡ false) }
{
    if !has_class(classes, name) {
        return Some(ImageCause::UnknownClass);
    }
    if is_kernel_class(classes, name) {
        return Some(ImageCause::KernelReplaced);
    }
    if has_subclass(classes, name) {
        return Some(ImageCause::UnknownSuperclass);
    }
    None
}

/// Why class-instance variables are refused by the classes before they are set.
pub fn early_side_refusal(classes: &ClassList, name: NameId, names: &[NameId]) -> Option<ImageCause>
    ensures cause { told result ≡ first_cause (early_side_refusals classes.now name names.now) }
    ensures some { is_some result ≡ is_some (first_cause (early_side_refusals classes.now name names.now)) }
{
    if !has_class(classes, name) {
        return Some(ImageCause::UnknownClass);
    }
    if is_kernel_class(classes, name) && !names.is_empty() {
        return Some(ImageCause::KernelReplaced);
    }
    None
}

/// Whether a variable of a kind stands twice on the chain of a class or of one below it, where none does on the parts of
/// chains below that class; none does at all where they are kept.
fn repeats_below(
    alloc: Global,
    new: &ClassList,
    kind: ChainKind,
    name: NameId,
    kept: bool,
) -> Result<bool, Memory>
    requires order { AreOrdered new.now }
    requires parts { PartsOnce new.now (kind_of kind) name }
    requires kept { kept ≡ true → stands_twice nat_eq new.now (kind_of kind) name ≡ false }
    ensures { IfOk result (λ found. found ≡ stands_twice nat_eq new.now (kind_of kind) name) }
{
    if kept {
        return Ok(false);
    }
    stands_twice(alloc, new, kind, name)
}

/// Whether an instance variable or a class-instance variable stands twice on the chain of a class or of one below it.
fn repeats_on_chains(
    alloc: Global,
    new: &ClassList,
    name: NameId,
    kept: KeptChains,
) -> Result<bool, Memory>
    requires order { AreOrdered new.now }
    requires instance_parts { PartsOnce new.now of_instance name }
    requires class_side_parts { PartsOnce new.now of_class_side name }
    requires instance { kept.instance ≡ true → stands_twice nat_eq new.now of_instance name ≡ false }
    requires class_side { kept.class_side ≡ true → stands_twice nat_eq new.now of_class_side name ≡ false }
    ensures { IfOk result (λ found. found ≡ (stands_twice nat_eq new.now of_instance name || stands_twice nat_eq new.now of_class_side name)) }
{
    if repeats_below(alloc, new, ChainKind::Instance, name, kept.instance)? {
        return Ok(true);
    }
    repeats_below(alloc, new, ChainKind::ClassSide, name, kept.class_side)
}

/// Why a definition of a class of a name is refused by the classes with it, where it is known whether a class variable
/// stands twice in its list, whether there is a class too many, and which variables stand on chains as they did.
pub fn late_refusal(
    alloc: Global,
    new: &ClassList,
    name: NameId,
    repeats: bool,
    too_many: bool,
    kept: KeptChains,
) -> Result<Option<ImageCause>, Memory>
    requires order { AreOrdered new.now }
    requires instance_parts { PartsOnce new.now of_instance name }
    requires class_side_parts { PartsOnce new.now of_class_side name }
    requires instance { kept.instance ≡ true → stands_twice nat_eq new.now of_instance name ≡ false }
    requires class_side { kept.class_side ≡ true → stands_twice nat_eq new.now of_class_side name ≡ false }
    ensures cause { IfOk result (λ cause. told cause ≡ first_cause (late_refusals new.now name repeats too_many)) }
    ensures some { IfOk result (λ cause. is_some cause ≡ is_some (first_cause (late_refusals new.now name repeats too_many))) }
{
    if repeats || repeats_on_chains(alloc, new, name, kept)? {
        return Ok(Some(ImageCause::VariableTwice));
    }
    if too_many {
        return Ok(Some(ImageCause::TooMany));
    }
    Ok(None)
}

/// Why class-instance variables are refused by the classes with them, where it is known whether they are those before.
pub fn late_side_refusal(
    alloc: Global,
    new: &ClassList,
    name: NameId,
    kept: bool,
) -> Result<Option<ImageCause>, Memory>
    requires order { AreOrdered new.now }
    requires parts { PartsOnce new.now of_class_side name }
    requires kept { kept ≡ true → stands_twice nat_eq new.now of_class_side name ≡ false }
    ensures cause { IfOk result (λ cause. told cause ≡ first_cause (late_side_refusals new.now name)) }
    ensures some { IfOk result (λ cause. is_some cause ≡ is_some (first_cause (late_side_refusals new.now name))) }
{
    if repeats_below(alloc, new, ChainKind::ClassSide, name, kept)? {
        return Ok(Some(ImageCause::VariableTwice));
    }
    Ok(None)
}
