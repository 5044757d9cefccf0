// Definitions of classes.
ghost use Rattle.std.specs.Prelude.{◌≡◌, ℕ, ◌<◌, ◌∷◌, ◌++◌, [], None, true, false, if◌then◌else◌, is_some, nat_eq, IfNone, IfSome, IfOk, OnOk};
ghost use Rattle.image_model.specs.Chain.{class_named};
ghost use Rattle.file_model.specs.Causes.{first_cause};
ghost use Rattle.file_model.specs.Hierarchy as hierarchy;
ghost use Rattle.file_model.specs.Refusals.{definition_refusals};
ghost use Rattle.file_model.specs.Applied.{new_class, with_definition, defined};
ghost use Rattle.file_laws.specs.Settling as settling;
ghost use Rattle.image_draft.specs.Early.{told, early_refusals};
ghost use Rattle.image_draft.specs.Alone.{IsChildless};
ghost use Rattle.image_draft.specs.Names.{NamesDiffer, AreOrdered};
ghost use Rattle.image_draft.specs.Once.{AreSound, StaysUnder};
ghost use Rattle.image_draft.specs.Owners.{AreOwned};

use crate::class_draft::{ClassDraft, Definition};
use crate::class_list::ClassList;
use crate::found::has_class;
use crate::hierarchy::has_repeat;
use crate::kept::kept_chains;
use crate::order::put_behind;
use crate::owners::Owners;
use crate::refusals::{early_refusal, is_one_class_too_many, late_refusal};
use crate::standing::{Standing, kept_alone, standing_of};
use file_faults::ImageCause;
use rb_base::{Ids, Memory, NameId, Text};
use std::alloc::Global;

/// Appends the class of a definition.
fn add_class(
    alloc: Global,
    classes: &mut ClassList,
    kernel: bool,
    definition: Definition,
) -> Result<(), Memory>
    ensures { OnOk result (classes.new ≡ classes.old ++ new_class kernel definition ∷ []) }
{
    let class = ClassDraft {
        name: definition.name,
        superclass: definition.superclass,
        instance: definition.instance,
        shared: definition.shared,
        class_side: Ids::new(alloc),
        category: definition.category,
        comment: Text::new(alloc),
        kernel,
    };
    classes.push(class)?;
    Ok(())
}

/// The name of the class that a definition defines.
fn name_of(definition: &Definition) -> NameId
    ensures { result ≡ definition.now.name }
{
    definition.name
}

/// Puts the class of a definition in the place of the former one, or last.
fn put_definition(
    alloc: Global,
    classes: &mut ClassList,
    kernel: bool,
    definition: Definition,
) -> Result<(), Memory>
    requires { NamesDiffer classes.old }
    ensures { OnOk result (classes.new ≡ with_definition nat_eq kernel definition classes.old) }
{
    let name = name_of(&definition);
    match classes.place(name) {
        None => add_class(alloc, classes, kernel, definition),
        Some(place) => {
            classes.redefine(place, definition);
            Ok(())
        }
    }
}

/// Whether a class variable stands twice in the list of a definition.
fn repeats_shared(alloc: Global, definition: &Definition) -> Result<bool, Memory>
    ensures { IfOk result (λ found. found ≡ hierarchy.has_repeat nat_eq definition.now.shared) }
{
    has_repeat(alloc, definition.shared.as_slice())
}

/// The superclass that a definition names.
fn superclass_of(definition: &Definition) -> Option<NameId>
    ensures { result ≡ definition.now.superclass }
{
    definition.superclass
}

/// Puts the classes in order, once the class of a name, which was there before or not, is defined with a superclass or
/// without one, where it may be known that it is the superclass of none.
fn settle_class(
    classes: &mut ClassList,
    was_there: bool,
    name: NameId,
    superclass: Option<NameId>,
    childless: bool,
) -> Result<(), Memory>
    requires differ { NamesDiffer classes.old }
    requires childless { childless ≡ true → hierarchy.has_subclass nat_eq classes.old name ≡ false }
    ensures { OnOk result (classes.new ≡ (if was_there then settling.put_behind nat_eq name superclass classes.old else classes.old)) }
{
    if was_there {
        put_behind(classes, name, superclass, childless)
    } else {
        Ok(())
    }
}

/// Defines a class, for the first time or again, and puts the classes in order, or tells why it can not be defined; then,
/// and on want of memory, no class may be left.
pub fn define_in_order(
    alloc: Global,
    classes: &mut ClassList,
    owners: &mut Owners,
    kernel: bool,
    definition: Definition,
) -> Result<Option<ImageCause>, Memory>
    requires sound { AreSound classes.old }
    requires owned { AreOwned owners.old classes.old }
    ensures cause { IfOk result (λ cause. told cause ≡ first_cause (definition_refusals nat_eq classes.old definition (with_definition nat_eq kernel definition classes.old))) }
    ensures some { IfOk result (λ cause. is_some cause ≡ is_some (first_cause (definition_refusals nat_eq classes.old definition (with_definition nat_eq kernel definition classes.old)))) }
    ensures changed { IfOk result (λ cause. IfNone cause (classes.new ≡ defined nat_eq kernel definition classes.old)) }
    ensures sound { AreSound classes.new }
    ensures owned { AreOwned owners.new classes.new }
    ensures kept { IfOk result (λ cause. IfNone cause ((n : ℕ) → hierarchy.has_class nat_eq classes.old n ≡ true → hierarchy.has_class nat_eq classes.new n ≡ true)) }
{
    let standing = standing_of(classes, owners, &definition);
    if let Some(cause) = early_refusal(classes, &definition, standing) {
        return Ok(Some(cause));
    }
    match make_definition(alloc, classes, owners, kernel, definition, standing) {
        Ok(None) => Ok(None),
        refused => {
            classes.take_all();
            refused
        }
    }
}

/// Makes a definition that the classes before it do not refuse, where it is known how its class stands among them, or tells
/// why the classes with it refuse it.
fn make_definition(
    alloc: Global,
    classes: &mut ClassList,
    owners: &mut Owners,
    kernel: bool,
    definition: Definition,
    standing: Standing,
) -> Result<Option<ImageCause>, Memory>
    requires sound { AreSound classes.old }
    requires owned { AreOwned owners.old classes.old }
    requires free { first_cause (early_refusals classes.old definition) ≡ None }
    requires stays { standing.stays ≡ true → StaysUnder classes.old definition }
    requires childless { standing.childless ≡ true → IsChildless classes.old definition.name }
    requires plain { standing.plain ≡ true → IfSome (class_named nat_eq classes.old definition.name) (λ c. c.class_side ≡ []) }
    ensures cause { IfOk result (λ cause. told cause ≡ first_cause (definition_refusals nat_eq classes.old definition (with_definition nat_eq kernel definition classes.old))) }
    ensures some { IfOk result (λ cause. is_some cause ≡ is_some (first_cause (definition_refusals nat_eq classes.old definition (with_definition nat_eq kernel definition classes.old)))) }
    ensures changed { OnOk result (classes.new ≡ defined nat_eq kernel definition classes.old) }
    ensures sound { IfOk result (λ cause. IfNone cause (AreSound classes.new)) }
    ensures owned { OnOk result (AreOwned owners.new classes.new) }
    ensures kept { OnOk result ((n : ℕ) → hierarchy.has_class nat_eq classes.old n ≡ true → hierarchy.has_class nat_eq classes.new n ≡ true) }
{
    let name = name_of(&definition);
    let repeats = repeats_shared(alloc, &definition)?;
    let too_many = is_one_class_too_many(classes, name);
    let kept = kept_chains(classes, &definition);
    let noted = owners.note_definition(alloc, &definition)?;
    let kept = kept.or(noted.apart).or(kept_alone(standing, noted.alone));
    put_in_order(alloc, classes, kernel, definition, standing.childless)?;
    late_refusal(alloc, classes, name, repeats, too_many, kept)
}

/// Puts a definition that the classes do not refuse in the place of the former one, or last, and the classes in order, where
/// it may be known that its class is the superclass of none.
fn put_in_order(
    alloc: Global,
    classes: &mut ClassList,
    kernel: bool,
    definition: Definition,
    childless: bool,
) -> Result<(), Memory>
    requires order { AreOrdered classes.old }
    requires childless { childless ≡ true → IsChildless classes.old definition.name }
    requires free { first_cause (early_refusals classes.old definition) ≡ None }
    ensures changed { OnOk result (classes.new ≡ defined nat_eq kernel definition classes.old) }
    ensures order { OnOk result (AreOrdered classes.new) }
    ensures kept { OnOk result ((n : ℕ) → hierarchy.has_class nat_eq classes.old n ≡ true → hierarchy.has_class nat_eq classes.new n ≡ true) }
{
    let name = name_of(&definition);
    let superclass = superclass_of(&definition);
    let was_there = has_class(classes, name);
    put_definition(alloc, classes, kernel, definition)?;
    settle_class(classes, was_there, name, superclass, childless)
}
