// Look-ups: where names are used, in the order of the image.
ghost use Rattle.std.specs.Prelude.{◌≡◌, [], ◌∷◌, ◌++◌, length, map, IfOk, OnOk};
ghost use Rattle.image_model.specs.Uses.{senders, identifier_uses};
ghost use Rattle.image_model.specs.Words.{number_words};
ghost use Rattle.class_table.specs.Valid.{IsOrderly};
ghost use Rattle.class_table.specs.View.{number_image};
ghost use Rattle.use_index.specs.Index.{IsUseIndexOf};
ghost use Rattle.use_index.specs.Uses.{is_use};
ghost use Rattle.use_index.specs.Found.{use_of, found_in_row, found_in_methods, found_in_doits};

use crate::index::UseIndex;
use crate::uses::{Sought, UseAt};
use class_table::{Image, MethodSlot, Place};
use rb_base::{Memory, NameId};
use st_tree::Path;
use std::alloc::Global;

/// A method or a do-it by its number in the order of the image, from 0.
#[derive(Clone, Copy, Debug)]
pub enum Owner {
    Method(usize),
    DoIt(usize),
}

/// A node that is found: the method or do-it, and the path there.
#[derive(Drop)]
pub struct Found {
    pub owner: Owner,
    pub path: Path,
}

/// Whether a use is one of the name that is looked for.
fn is_sought(one: &UseAt, name: NameId, what: Sought) -> bool
    ensures { result ≡ is_use name what one.now }
{
    name == one.name && what.answers(one.way)
}

/// Puts a use at the end, if it is one of the name that is looked for.
fn put_one(
    alloc: Global,
    one: &UseAt,
    name: NameId,
    what: Sought,
    owner: Owner,
    found: &mut Vec<Found>,
) -> Result<(), Memory>
    ensures { OnOk result (found.new.items ≡ found.old.items ++ found_in_row name what owner (one.now ∷ [])) }
{
    if is_sought(one, name, what) {
        let path = one.path.try_copy(alloc)?;
        found.push(Found { owner, path })?;
    }
    Ok(())
}

/// Puts the uses of the name in a row at the end that are looked for.
fn put_row(
    alloc: Global,
    row: &[UseAt],
    name: NameId,
    what: Sought,
    owner: Owner,
    found: &mut Vec<Found>,
) -> Result<(), Memory>
    ensures { OnOk result (found.new.items ≡ found.old.items ++ found_in_row name what owner row.now) }
{
    for one in row {
        put_one(alloc, one, name, what, owner, found)?;
    }
    Ok(())
}

/// Puts those in methods at the end, in their order.
fn put_methods(
    alloc: Global,
    index: &UseIndex,
    methods: &[MethodSlot],
    name: NameId,
    what: Sought,
    found: &mut Vec<Found>,
) -> Result<(), Memory>
    ensures { OnOk result (found.new.items ≡ found.old.items ++ found_in_methods index.now name what methods.now) }
{
    for number in 0..methods.len() {
        let row = index.used(Place::Method(methods[number]));
        put_row(alloc, row, name, what, Owner::Method(number), found)?;
    }
    Ok(())
}

/// Puts those in do-its at the end, of which there are so many.
fn put_doits(
    alloc: Global,
    index: &UseIndex,
    count: usize,
    name: NameId,
    what: Sought,
    found: &mut Vec<Found>,
) -> Result<(), Memory>
    ensures { OnOk result (found.new.items ≡ found.old.items ++ found_in_doits index.now name what count) }
{
    for number in 0..count {
        let row = index.used(Place::DoIt(number));
        put_row(alloc, row, name, what, Owner::DoIt(number), found)?;
    }
    Ok(())
}

/// The uses of the name that are looked for, in the order of the image, those in do-its last. Opens nothing.
fn uses_found(
    alloc: Global,
    image: &Image,
    index: &UseIndex,
    name: NameId,
    what: Sought,
) -> Result<Vec<Found>, Memory>
    ensures { IfOk result (λ found. found.items ≡ found_in_methods index.now name what image.now.method_order ++ found_in_doits index.now name what (length image.now.doits)) }
{
    let mut found = Vec::new(alloc);
    put_methods(alloc, index, image.methods(), name, what, &mut found)?;
    put_doits(alloc, index, image.doits(), name, what, &mut found)?;
    Ok(found)
}

/// The nodes that send the selector, in the order of the image, those in do-its last. Opens nothing. Want of memory, if there is
/// not enough of it for the list.
pub fn senders(
    alloc: Global,
    image: &Image,
    index: &UseIndex,
    selector: NameId,
) -> Result<Vec<Found>, Memory>
    requires orderly { IsOrderly image.now }
    requires index { IsUseIndexOf image.now index.now }
    ensures { IfOk result (λ found. map use_of found.items ≡ senders (number_words image.now.names) (number_image image.now) selector) }
{
    uses_found(alloc, image, index, selector, Sought::Sent)
}

/// Each node that reads, assigns or declares the name, and each method and do-it that declares it, in the order of the image,
/// do-its last. Opens nothing. Want of memory, if there is not enough of it for the list.
pub fn identifier_uses(
    alloc: Global,
    image: &Image,
    index: &UseIndex,
    name: NameId,
) -> Result<Vec<Found>, Memory>
    requires orderly { IsOrderly image.now }
    requires index { IsUseIndexOf image.now index.now }
    ensures { IfOk result (λ found. map use_of found.items ≡ identifier_uses (number_words image.now.names) (number_image image.now) name) }
{
    uses_found(alloc, image, index, name, Sought::Named)
}
