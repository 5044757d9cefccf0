// The methods of slots.
ghost use Rattle.std.specs.Prelude.{◌≡◌, Some, nat_eq, option_map};
ghost use Rattle.std.specs.Option.{ForSome};
ghost use Rattle.class_table.specs.Valid.{IsOrderly};
ghost use Rattle.class_table.specs.View.{entry_of, live_at, number_image};
ghost use Rattle.command_model.specs.CodeEffects.{method_at};
ghost use Rattle.command_model.specs.SameMethods.{same_meaning};
ghost use Rattle.commands.specs.Views.{asked_by};
ghost use Rattle.image_model.specs.Means.{means};
ghost use Rattle.image_model.specs.Words.{number_words};
ghost use Rattle.name_meanings.specs.Meanings.{meaning_of};
ghost use Rattle.part_witnesses.specs.Held.{IsHeld, code_in, held_as};

use class_table::{Image, MethodInfo, MethodSlot};
use commands::MethodName;
use hierarchy_questions::own_method;
use inline_questions::same_meaning;
use name_meanings::{Meaning, method_meaning};
use part_questions::MethodCode;
use rb_base::{NameId, Steps};
use st_tree::{Method, Path};
use std::sync::ledger::Ledger;

/// A method in a slot.
#[derive(Clone, Copy)]
pub(crate) struct Held<'a> {
    pub slot: MethodSlot,
    pub info: MethodInfo<'a>,
    pub tree: &'a Method,
}

/// The method in a slot, if the slot is live. Counts one step.
pub(crate) fn slot_method<'a, L: Ledger>(
    image: &'a Image,
    slot: MethodSlot,
    steps: &mut Steps<L>,
) -> Option<Held<'a>>
    requires { IsOrderly image.now }
    ensures method { option_map (held_as image.now.classes) result ≡ option_map (entry_of image.now.classes) (live_at image.now.methods image.now.method_order slot) }
    ensures held { ForSome result (IsHeld image.now) }
{
    let Some(info) = image.method_info(slot) else {
        return None;
    };
    let Some(tree) = image.open_body(slot, steps) else {
        return None;
    };
    Some(Held { slot, info, tree })
}

/// The method of these names, if the class itself has it and it is one of the user. Counts at most one step.
pub(crate) fn users_held<'a, L: Ledger>(
    image: &'a Image,
    method: MethodName,
    steps: &mut Steps<L>,
) -> Option<Held<'a>>
    requires { IsOrderly image.now }
    ensures method { option_map (held_as image.now.classes) result ≡ method_at (asked_by image.now.names) (number_image image.now) method.class method.meta method.selector }
    ensures held { ForSome result (IsHeld image.now) }
{
    let Some(slot) = own_method(image, method) else {
        return None;
    };
    let Some(found) = slot_method(image, slot, steps) else {
        return None;
    };
    if found.info.kernel {
        return None;
    }
    Some(found)
}

/// Its code.
pub(crate) fn code_of<'a>(method: &Held<'a>) -> MethodCode<'a>
    ensures { result ≡ code_in method.now }
{
    MethodCode {
        class: method.info.class,
        meta: method.info.meta,
        tree: method.tree,
    }
}

/// What a name means at a place of the method.
pub(crate) fn meaning_in(image: &Image, method: &Held<'_>, path: &Path, name: NameId) -> Meaning
    requires orderly { IsOrderly image.now }
    requires held { IsHeld image.now method.now }
    ensures { meaning_of result ≡ means (number_words image.now.names) (number_image image.now) (held_as image.now.classes method.now) path.now name }
{
    let info = &method.info;
    method_meaning(image, info.class, info.meta, method.tree, path, name)
}

/// Whether a name means at a place of a method what it means at a place of another, or of the same.
pub(crate) fn means_same<'a>(
    image: &Image,
    method: &Held<'a>,
    path: &Path,
    other: &Held<'a>,
    other_path: &Path,
    name: NameId,
) -> bool
    requires orderly { IsOrderly image.now }
    requires held { IsHeld image.now method.now }
    requires other_held { IsHeld image.now other.now }
    ensures { result ≡ same_meaning nat_eq (means (number_words image.now.names) (number_image image.now) (held_as image.now.classes method.now) path.now name) (means (number_words image.now.names) (number_image image.now) (held_as image.now.classes other.now) other_path.now name) }
{
    let meaning = meaning_in(image, method, path, name);
    let again = meaning_in(image, other, other_path, name);
    same_meaning(meaning, again)
}
