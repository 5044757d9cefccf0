// The changes by which a part of a method becomes a method of its own.
ghost use Rattle.std.specs.Prelude.{◌≡◌, ◌<◌, length, None, IfOk};
ghost use Rattle.std.specs.Option.{ForSome};
ghost use Rattle.class_table.specs.Valid.{IsOrderly};
ghost use Rattle.class_table.specs.View.{number_image};
ghost use Rattle.wider_slots.specs.Closed.{IsClosed};
ghost use Rattle.wider_slots.specs.Wider.{Wider};
ghost use Rattle.command_model.specs.CodeEffects as model;
ghost use Rattle.commands.specs.Views.{asked_by, code_command, self_in};
ghost use Rattle.commands.specs.declared.command.CodeMove.TheVariants as code;
ghost use Rattle.code_plans.specs.Extractions.{IsExtraction};
ghost use Rattle.part_lookup.specs.Kept.{IsKept};
ghost use Rattle.plans.specs.Plan.{IsPlan};
ghost use Rattle.reference_index.specs.Mentioned.{IsIndexOf};

use crate::behind::place_behind;
use class_table::{Image, MethodRec};
use commands::MethodPart;
use extracted_code::extract;
use method_plans::put_live;
use part_lookup::{KeptPart, kept_part};
use plans::Plan;
use rb_base::{Memory, NameId, Steps, Text};
use reference_index::Index;
use slot_room::room_for_method;
use st_formatter::format_method;
use st_tree::Method;
use std::alloc::Global;
use std::sync::ledger::Ledger;
use temporary_plans::{no_changes, put_retold};
use users_methods::{is_listed, users_slots};

/// What comes of a method of which a part is extracted.
pub(crate) struct Extraction {
    /// The method with a message in place of the part.
    pub sender: Method,
    /// The new method.
    pub rec: MethodRec,
    /// The place of the new method in the order.
    pub place: usize,
}

/// What comes of the user's method of which a part is extracted, if the part is there.
fn extracted<L: Ledger>(
    alloc: Global,
    image: &Image,
    part: &MethodPart,
    to: NameId,
    self_name: NameId,
    kept: &Option<KeptPart>,
    steps: &mut Steps<L>,
) -> Result<Option<Extraction>, Memory>
    requires orderly { IsOrderly image.now }
    requires kept { ForSome kept.now (IsKept image.now) }
    requires self_is { self_name ≡ self_in image.now.names }
    requires self_known { self_name < length image.now.names }
    requires known { to < length image.now.names }
    ensures some { IfOk result (λ found. ForSome found (λ (e : Extraction). IsExtraction image.now part.now to e)) }
    ensures none { IfOk result (λ found. found ≡ None → model.part_at (asked_by image.now.names) (number_image image.now) part.now.method.class part.now.method.meta part.now.method.selector part.now.from part.now.to ≡ None) }
{
    let Some(found) = kept_part(alloc, image, part, kept, steps)? else {
        return Ok(None);
    };
    let user = found.method;
    let made = extract(alloc, image.names(), self_name, user.tree, &found.part, to)?;
    let Some(place) = place_behind(image, part.method.class, part.method.meta) else {
        return Ok(None);
    };
    let mut source = Text::new(alloc);
    format_method(alloc, &made.method, image.names(), &mut source)?;
    let rec = MethodRec {
        class: user.class,
        meta: part.method.meta,
        protocol: Text::from_slice(alloc, user.protocol)?,
        source,
        tree: made.method,
        kernel: false,
    };
    Ok(Some(Extraction {
        sender: made.sender,
        rec,
        place,
    }))
}

/// Room for the new method, and the changes by which the part becomes a message of `to` and a method. Where there is no such
/// part, there is no change. `self_name` is the name `self`. Reads no source if the part is kept. On want of memory the image shows
/// the same.
#[tactic(auto, using(method_plans::proofs::Added::wider_same))]
pub fn plan_extraction<L: Ledger>(
    alloc: Global,
    image: &mut Image,
    index: &Index,
    part: &MethodPart,
    to: NameId,
    self_name: NameId,
    kept: &Option<KeptPart>,
    steps: &mut Steps<L>,
) -> Result<Plan, Memory>
    requires closed { IsClosed image.old }
    requires orderly { IsOrderly image.old }
    requires index { IsIndexOf image.old index.now }
    requires kept { ForSome kept.now (IsKept image.old) }
    requires self_is { self_name ≡ self_in image.old.names }
    requires self_known { self_name < length image.old.names }
    requires known { to < length image.old.names }
    ensures wider { Wider image.old image.new }
    ensures names { image.new.names ≡ image.old.names }
    ensures plan { IfOk result (λ found. IsPlan image.new (code_command (code.ExtractMethod part.now to)) found.changes found.touched.items) }
{
    let users = users_slots(alloc, image, index, &part.method)?;
    let own = users.as_slice();
    let Some(found) = extracted(alloc, image, part, to, self_name, kept, steps)? else {
        return Ok(no_changes(alloc));
    };
    let Extraction { sender, rec, place } = found;
    let Ok(slot) = room_for_method(image, rec) else {
        return Err(Memory);
    };
    let mut plan = no_changes(alloc);
    let roomy: &Image = image;
    for other in roomy.methods() {
        if is_listed(own, *other) {
            put_retold(alloc, roomy, *other, &sender, &mut plan, steps)?;
        }
    }
    put_live(&mut plan, slot, Some(place))?;
    Ok(plan)
}
