// The part of a method at a place of its source.
ghost use Rattle.std.specs.Prelude.{◌≡◌, Some, option_map, IfOk};
ghost use Rattle.std.specs.Option.{ForSome};
ghost use Rattle.class_table.specs.Valid.{IsLive, IsOrderly};
ghost use Rattle.class_table.specs.View.{class_name, number_image};
ghost use Rattle.command_model.specs.CodeEffects as model;
ghost use Rattle.command_model.specs.PartsOfText.{parts_of_text};
ghost use Rattle.commands.specs.Views.{asked_by};
ghost use Rattle.part_questions.specs.Parts.{part_of};
ghost use Rattle.part_lookup.specs.declared.lookup.UsersPart.{UsersPart};
ghost use Rattle.part_lookup.specs.Found.{found_in};

use class_table::Image;
use command_model::law_parts_of_text;
use commands::MethodPart;
use rb_base::{Memory, Steps};
use st_spans::{ParseFault, part_of_span};
use st_tree::Part;
use std::alloc::Global;
use std::sync::ledger::Ledger;
use users_methods::{UsersMethod, users_method};

/// A method of the user, and a part of it.
#[derive(Drop)]
pub struct UsersPart<'a> {
    pub method: UsersMethod<'a>,
    pub part: Part,
}

/// The part of a user's method that stands from one place of the source up to another, in bytes from the start: a node, or,
/// where no node stands there, two or more neighbouring statements. `None` where neither stands there, and where the source
/// spells no method of a user. Want of memory, if there is not enough of it to read the source.
pub fn part_at(alloc: Global, source: &[u8], from: usize, to: usize) -> Result<Option<Part>, Memory>
    ensures { IfOk result (λ part. option_map part_of part ≡ parts_of_text source.now from to) }
{
    law_parts_of_text();
    match part_of_span(alloc, source, from, to) {
        Ok(part) => Ok(part),
        Err(fault) => match fault {
            ParseFault::Memory => Err(Memory),
            _ => Ok(None),
        },
    }
}

/// The method of the user, if there is such a one, and the part of it that stands at these places, if there is one. Counts at
/// most one step. Want of memory, if there is not enough of it to read the source.
pub fn users_part<'a, L: Ledger>(
    alloc: Global,
    image: &'a Image,
    part: &MethodPart,
    steps: &mut Steps<L>,
) -> Result<Option<UsersPart<'a>>, Memory>
    requires { IsOrderly image.now }
    ensures part { IfOk result (λ found. option_map (found_in image.now.classes) found ≡ model.part_at (asked_by image.now.names) (number_image image.now) part.now.method.class part.now.method.meta part.now.method.selector part.now.from part.now.to) }
    ensures live { IfOk result (λ found. ForSome found (λ (f : UsersPart). IsLive image.now.class_order f.method.class)) }
    ensures named { IfOk result (λ found. ForSome found (λ (f : UsersPart). class_name image.now.classes f.method.class ≡ Some part.now.method.class)) }
{
    let Some(method) = users_method(image, part.method, steps) else {
        return Ok(None);
    };
    let Some(part) = part_at(alloc, method.source, part.from, part.to)? else {
        return Ok(None);
    };
    Ok(Some(UsersPart { method, part }))
}
