// The events of a log, read with the names of an image.
ghost use Rattle.std.specs.Prelude.{◌≡◌, ℕ, Some, IfOk, IfErr, OnOk};
ghost use Rattle.event_trees.specs.Naming.{Grows};
ghost use Rattle.class_table.specs.View.{image_of};
ghost use Rattle.class_table.specs.Valid.{IsOrderly};
ghost use Rattle.live_slots.specs.Live.{AllLive};
ghost use Rattle.wider_slots.specs.Closed.{IsClosed};
ghost use Rattle.commands.specs.Views.{HasSelf};
ghost use Rattle.script_model.specs.Commands.{Cause};
ghost use Rattle.script_lang.specs.Shown.{fault_shown};
ghost use Rattle.log_model.specs.Events.{LogSays, IsLogRefused};
ghost use Rattle.log_lang.specs.Shown.{events_in, AreKnownEvents};

use class_table::Image;
use log_lang::{Event, parse_log};
use rb_base::Names;
use script_lang::ScriptFault;
use std::alloc::Global;

/// Reads the events of a log. Names that are new are added to the table, and so is `self`.
fn events_and_self(alloc: Global, log: &[u8], names: &mut Names) -> Result<Vec<Event>, ScriptFault>
    ensures grows { Grows names.old names.new }
    ensures self_known { OnOk result (HasSelf names.new) }
    ensures said { IfOk result (λ events. LogSays log.now (events_in names.new events.items)) }
    ensures known { IfOk result (λ events. AreKnownEvents names.new events.items) }
    ensures fault { IfErr result (λ f. (n : ℕ) (cause : Cause) → fault_shown f ≡ Some (n, cause) → IsLogRefused log.now n cause) }
{
    let events = parse_log(alloc, log, names)?;
    names.intern(b"self")?;
    Ok(events)
}

/// Reads the events of a log with the names of an image, to which those that are new are added, and `self`.
fn events_with_names(
    alloc: Global,
    log: &[u8],
    image: &mut Image,
) -> Result<Vec<Event>, ScriptFault>
    ensures rest { image.new ≡ record image.old { names = image.new.names } }
    ensures grows { Grows image.old.names image.new.names }
    ensures self_known { OnOk result (HasSelf image.new.names) }
    ensures said { IfOk result (λ events. LogSays log.now (events_in image.new.names events.items)) }
    ensures known { IfOk result (λ events. AreKnownEvents image.new.names events.items) }
    ensures fault { IfErr result (λ f. (n : ℕ) (cause : Cause) → fault_shown f ≡ Some (n, cause) → IsLogRefused log.now n cause) }
{
    events_and_self(alloc, log, image.names_mut())
}

/// Reads the events of a log. Names that are new are added to those of the image, which for the rest is as it was.
pub(crate) fn events_of(
    alloc: Global,
    log: &[u8],
    image: &mut Image,
) -> Result<Vec<Event>, ScriptFault>
    requires orderly { IsOrderly image.old }
    requires live { AllLive image.old }
    ensures image { image_of image.new ≡ image_of image.old }
    ensures orderly { IsOrderly image.new }
    ensures closed { IsClosed image.new }
    ensures self_known { OnOk result (HasSelf image.new.names) }
    ensures said { IfOk result (λ events. LogSays log.now (events_in image.new.names events.items)) }
    ensures known { IfOk result (λ events. AreKnownEvents image.new.names events.items) }
    ensures fault { IfErr result (λ f. (n : ℕ) (cause : Cause) → fault_shown f ≡ Some (n, cause) → IsLogRefused log.now n cause) }
{
    let events = events_with_names(alloc, log, image);
    let _count = image.names().len();
    events
}
