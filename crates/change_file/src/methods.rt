// The methods of the user in an image, and those of them that another image has not as they are.
ghost use Rattle.std.specs.Prelude.{◌≡◌, map, IfOk, option_map};
ghost use Rattle.class_table.specs.View.{image_of};
ghost use Rattle.class_table.specs.Valid.{IsLive, IsOrderly};
ghost use Rattle.file_model.specs.Written.{user_methods};
ghost use Rattle.change_file.specs.Partners.{is_partner_equal};
ghost use Rattle.change_file.specs.Shown.{IsToldApart, shown, shown_method, key_shown, is_equal_shown, shown_at, AreMethods, AreOtherMethods, AreShownApart};

use crate::keys::{partner_at, partners};
use crate::pieces::same_text;
use class_table::{Image, MethodSlot};
use image_file::{UserMethod, user_method};
use rb_base::{Memory, Names, Text};
use std::alloc::Global;

/// A method of the user as it is written, and its selector.
#[derive(Clone, Copy)]
pub(crate) struct SignedMethod<'a> {
    pub method: UserMethod<'a>,
    pub selector: &'a [u8],
}

/// The methods of the user in an image, in order, and the keys that tell them apart.
#[derive(Drop)]
pub(crate) struct Methods<'a> {
    pub image: &'a Image,
    pub items: Vec<SignedMethod<'a>>,
    pub keys: Names,
}

/// A method, and its place among those of the user, from 1.
#[derive(Clone, Copy)]
pub(crate) struct PlacedMethod<'a> {
    pub place: usize,
    pub item: SignedMethod<'a>,
}

/// The method in a live slot, if it is one of the user.
fn signed_method(image: &Image, slot: MethodSlot) -> Option<SignedMethod<'_>>
    requires orderly { IsOrderly image.now }
    requires live { IsLive image.now.method_order slot }
    ensures { option_map shown_method result ≡ shown_at image.now slot }
{
    match user_method(image, slot) {
        None => None,
        Some(method) => match image.method_info(slot) {
            None => None,
            Some(info) => Some(SignedMethod {
                method,
                selector: image.names().text_of(info.selector),
            }),
        },
    }
}

/// The methods of the user in an image, in order.
fn user_methods(alloc: Global, image: &Image) -> Result<Vec<SignedMethod<'_>>, Memory>
    requires { IsOrderly image.now }
    ensures { IfOk result (λ items. map shown_method items.items ≡ map shown (user_methods (image_of image.now))) }
{
    let mut items = Vec::new(alloc);
    for slot in image.methods() {
        if let Some(item) = signed_method(image, *slot) {
            items.push(item)?;
        }
    }
    Ok(items)
}

/// The byte that stands before each byte of a class, and those behind the class: of the instance side and of the class side.
const WITHIN: u8 = 1;

const INSTANCE_SIDE: u8 = 0;

const CLASS_SIDE: u8 = 2;

/// A text that tells a class, a side and a selector: each byte of the class behind a mark, a mark for the side, and the
/// selector.
pub(crate) fn key_of(alloc: Global, item: &SignedMethod<'_>) -> Result<Text, Memory>
    ensures { IfOk result (λ key. key ≡ key_shown (shown_method item.now)) }
{
    let mut key = Text::new(alloc);
    for byte in item.method.class {
        key.push_slice(&[WITHIN, *byte])?;
    }
    if item.method.meta {
        key.push_slice(&[CLASS_SIDE])?;
    } else {
        key.push_slice(&[INSTANCE_SIDE])?;
    }
    key.push_slice(item.selector)?;
    Ok(key)
}

/// The keys of methods, no two of which are of one class, side and selector.
fn keys_of(alloc: Global, items: &[SignedMethod<'_>]) -> Result<Names, Memory>
    requires { AreShownApart (map shown_method items.now) }
    ensures { IfOk result (λ keys. keys ≡ map key_shown (map shown_method items.now)) }
{
    let mut keys = Names::new(alloc);
    for item in items {
        let key = key_of(alloc, item)?;
        let _number = keys.intern(key.as_slice())?;
    }
    Ok(keys)
}

/// The methods of the user in an image, and their keys.
pub(crate) fn methods_of(alloc: Global, image: &Image) -> Result<Methods<'_>, Memory>
    requires orderly { IsOrderly image.now }
    requires apart { IsToldApart (image_of image.now) }
    ensures methods { IfOk result AreMethods }
    ensures image { IfOk result (λ methods. methods.image.now ≡ image.now) }
{
    let items = user_methods(alloc, image)?;
    let keys = keys_of(alloc, items.as_slice())?;
    Ok(Methods { image, items, keys })
}

/// Whether two methods of the user are equal.
fn same_method(item: &SignedMethod<'_>, other: &SignedMethod<'_>) -> bool
    ensures { result ≡ is_equal_shown (shown_method item.now) (shown_method other.now) }
{
    same_text(item.method.class, other.method.class)
        && item.method.meta == other.method.meta
        && same_text(item.selector, other.selector)
        && same_text(item.method.protocol, other.method.protocol)
        && same_text(item.method.source, other.method.source)
}

/// Whether a method is the same among others, at a place that its partner gives.
fn is_partner_same(
    item: &SignedMethod<'_>,
    others: &[SignedMethod<'_>],
    partner: Option<usize>,
) -> bool
    ensures { result ≡ is_partner_equal is_equal_shown (map shown_method others.now) (shown_method item.now) partner }
{
    match partner {
        None => false,
        Some(place) => match others.get(place) {
            None => false,
            Some(other) => same_method(item, other),
        },
    }
}

/// The methods that the other image has not as they are, at their places among those that both have.
pub(crate) fn differing_methods<'a>(
    alloc: Global,
    mine: &Methods<'a>,
    theirs: &Methods<'_>,
) -> Result<Vec<PlacedMethod<'a>>, Memory>
    requires mine { AreMethods mine.now }
    requires theirs { AreMethods theirs.now }
    requires apart { IsToldApart (image_of mine.now.image.now) }
    requires theirs_apart { IsToldApart (image_of theirs.now.image.now) }
    ensures { IfOk result (λ found. AreOtherMethods mine.now.image.now theirs.now.image.now found.items) }
{
    let partners = partners(alloc, &mine.keys, &theirs.keys)?;
    let mut found = Vec::new(alloc);
    for (number, item) in mine.items.iter().enumerate() {
        let partner = partner_at(partners.as_slice(), number);
        if !is_partner_same(item, theirs.items.as_slice(), partner) {
            found.push(PlacedMethod {
                place: number + 1,
                item: *item,
            })?;
        }
    }
    Ok(found)
}
