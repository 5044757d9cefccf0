// Methods that are found in an image.
ghost use Rattle.std.specs.Prelude.{◌≡◌, nat_eq, option_map};
ghost use Rattle.std.specs.Option.{ForSome};
ghost use Rattle.image_model.specs.Lookup.{own_method};
ghost use Rattle.class_table.specs.Valid.{IsLive, IsOrderly};
ghost use Rattle.class_table.specs.View.{number_image};
ghost use Rattle.method_questions.specs.Found.{bare_entry, as_entry, opened_at, own_slot, named_slot};

use class_table::{ClassId, Image, MethodSlot};
use commands::MethodName;
use rb_base::{NameId, Steps};
use st_tree::Method;
use std::sync::ledger::Ledger;

/// A method as one of a class.
#[derive(Clone, Copy)]
pub struct Found<'a> {
    /// The slot of the class.
    pub class: ClassId,
    /// Whether it is a method of the class side.
    pub meta: bool,
    /// Its tree.
    pub tree: &'a Method,
}

/// The slot of the method that the class in a slot itself has, if there is one.
pub(crate) fn own_slot(
    image: &Image,
    class: ClassId,
    meta: bool,
    selector: NameId,
) -> Option<MethodSlot>
    ensures { result ≡ own_slot image.now class meta selector }
{
    let slot = image.lookup(class, meta, selector)?;
    let Some(info) = image.method_info(slot) else {
        return None;
    };
    if info.class == class && info.meta == meta {
        Some(slot)
    } else {
        None
    }
}

/// The slot of the method of these names, if there is one.
pub fn named_slot(image: &Image, class: NameId, meta: bool, selector: NameId) -> Option<MethodSlot>
    ensures { result ≡ named_slot image.now class meta selector }
{
    let class = image.class_named(class)?;
    own_slot(image, class, meta, selector)
}

/// The method in a slot, if the slot is live. Counts one step.
pub(crate) fn opened<'a, L: Ledger>(
    image: &'a Image,
    slot: MethodSlot,
    steps: &mut Steps<L>,
) -> Option<Found<'a>>
    requires { IsOrderly image.now }
    ensures live { ForSome result (λ found. IsLive image.now.class_order found.class) }
    ensures method { option_map (as_entry image.now.classes) result ≡ opened_at image.now slot }
{
    let Some(info) = image.method_info(slot) else {
        return None;
    };
    let tree = image.open_body(slot, steps)?;
    Some(Found {
        class: info.class,
        meta: info.meta,
        tree,
    })
}

/// The method of these names, if there is one. Counts at most one step.
pub(crate) fn opened_named<'a, L: Ledger>(
    image: &'a Image,
    method: MethodName,
    steps: &mut Steps<L>,
) -> Option<Found<'a>>
    requires { IsOrderly image.now }
    ensures live { ForSome result (λ found. IsLive image.now.class_order found.class) }
    ensures method { option_map (as_entry image.now.classes) result ≡ option_map bare_entry (own_method nat_eq (number_image image.now).methods method.class method.meta method.selector) }
{
    let slot = named_slot(image, method.class, method.meta, method.selector)?;
    opened(image, slot, steps)
}
