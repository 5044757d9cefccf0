// The part of a method that is kept once it is found.
ghost use Rattle.std.specs.Prelude.{◌≡◌, ◌↔◌, Some, IsTrue, IfOk, option_map};
ghost use Rattle.std.specs.Option.{ForSome};
ghost use Rattle.class_table.specs.Valid.{IsLive, IsOrderly};
ghost use Rattle.class_table.specs.View.{class_name, number_image};
ghost use Rattle.command_model.specs.CodeEffects as model;
ghost use Rattle.commands.specs.Views.{asked_by};
ghost use Rattle.part_lookup.specs.declared.lookup.UsersPart.{UsersPart};
ghost use Rattle.part_lookup.specs.Found.{found_in};
ghost use Rattle.part_lookup.specs.Kept.{IsKept};

use crate::lookup::{UsersPart, part_at, users_part};
use class_table::Image;
use commands::MethodPart;
use rb_base::{Memory, Steps};
use st_tree::Part;
use std::alloc::Global;
use std::sync::ledger::Ledger;
use users_methods::users_method;

/// A part of a method that was looked for, and what was found: nothing, if the user has no such part.
#[derive(Drop)]
pub struct KeptPart {
    pub sought: MethodPart,
    pub found: Option<Part>,
}

/// Looks for the part of a user's method, and keeps what is found. Counts at most one step. Want of memory, if there is not
/// enough of it to read the source.
pub fn keep_part<L: Ledger>(
    alloc: Global,
    image: &Image,
    part: &MethodPart,
    steps: &mut Steps<L>,
) -> Result<KeptPart, Memory>
    requires { IsOrderly image.now }
    ensures { IfOk result (IsKept image.now) }
{
    let found = match users_method(image, part.method, steps) {
        None => None,
        Some(method) => part_at(alloc, method.source, part.from, part.to)?,
    };
    Ok(KeptPart {
        sought: *part,
        found,
    })
}

/// Whether both are at the same places of the same method.
fn is_same(one: &MethodPart, other: &MethodPart) -> bool
    ensures { IsTrue result ↔ (one.now ≡ other.now) }
{
    one.method.class == other.method.class
        && one.method.meta == other.method.meta
        && one.method.selector == other.method.selector
        && one.from == other.from
        && one.to == other.to
}

/// A copy of the part, if there is one.
fn copy_of(alloc: Global, part: &Option<Part>) -> Result<Option<Part>, Memory>
    ensures { IfOk result (λ copy. copy ≡ part.now) }
{
    match part {
        None => Ok(None),
        Some(Part::Expression { path }) => Ok(Some(Part::Expression {
            path: path.try_copy(alloc)?,
        })),
        Some(Part::Run { path, first, count }) => Ok(Some(Part::Run {
            path: path.try_copy(alloc)?,
            first: *first,
            count: *count,
        })),
    }
}

/// The method of the user, if there is such a one, with the part that is kept of it, if there is one. Counts at most one step.
/// Want of memory, if there is not enough of it for a copy of the part.
fn part_again<'a, L: Ledger>(
    alloc: Global,
    image: &'a Image,
    kept: &KeptPart,
    steps: &mut Steps<L>,
) -> Result<Option<UsersPart<'a>>, Memory>
    requires orderly { IsOrderly image.now }
    requires kept { IsKept image.now kept.now }
    ensures part { IfOk result (λ found. option_map (found_in image.now.classes) found ≡ model.part_at (asked_by image.now.names) (number_image image.now) kept.now.sought.method.class kept.now.sought.method.meta kept.now.sought.method.selector kept.now.sought.from kept.now.sought.to) }
    ensures live { IfOk result (λ found. ForSome found (λ (f : UsersPart). IsLive image.now.class_order f.method.class)) }
    ensures named { IfOk result (λ found. ForSome found (λ (f : UsersPart). class_name image.now.classes f.method.class ≡ Some kept.now.sought.method.class)) }
{
    let Some(part) = copy_of(alloc, &kept.found)? else {
        return Ok(None);
    };
    let Some(method) = users_method(image, kept.sought.method, steps) else {
        return Ok(None);
    };
    Ok(Some(UsersPart { method, part }))
}

/// The method of the user, if there is such a one, and the part of it that stands at these places, if there is one. Reads no
/// source if what is kept was looked for at the same places. Counts at most one step. Want of memory, if there is not enough of
/// it to copy what is kept or to read the source.
pub fn kept_part<'a, L: Ledger>(
    alloc: Global,
    image: &'a Image,
    part: &MethodPart,
    kept: &Option<KeptPart>,
    steps: &mut Steps<L>,
) -> Result<Option<UsersPart<'a>>, Memory>
    requires orderly { IsOrderly image.now }
    requires kept { ForSome kept.now (IsKept image.now) }
    ensures part { IfOk result (λ found. option_map (found_in image.now.classes) found ≡ model.part_at (asked_by image.now.names) (number_image image.now) part.now.method.class part.now.method.meta part.now.method.selector part.now.from part.now.to) }
    ensures live { IfOk result (λ found. ForSome found (λ (f : UsersPart). IsLive image.now.class_order f.method.class)) }
    ensures named { IfOk result (λ found. ForSome found (λ (f : UsersPart). class_name image.now.classes f.method.class ≡ Some part.now.method.class)) }
{
    match kept {
        Some(kept) => {
            if is_same(&kept.sought, part) {
                part_again(alloc, image, kept, steps)
            } else {
                users_part(alloc, image, part, steps)
            }
        }
        None => users_part(alloc, image, part, steps),
    }
}
