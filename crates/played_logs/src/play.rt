// The answer to a log in an image.
ghost use Rattle.std.specs.Prelude.{◌≡◌, ◌≤◌, ◌<◌, ◌+◌, ℕ, List, [], length, IfOk, OnOk, OnErr};
ghost use Rattle.class_table.specs.View.{image_of};
ghost use Rattle.class_table.specs.Valid.{IsOrderly};
ghost use Rattle.live_slots.specs.Live.{AllLive};
ghost use Rattle.wider_slots.specs.Closed.{IsClosed};
ghost use Rattle.commands.specs.Views.{HasSelf};
ghost use Rattle.history_model.specs.History.{opened};
ghost use Rattle.session_model.specs.Scripts.{rules};
ghost use Rattle.session.specs.History.{history_of};
ghost use Rattle.team_core.specs.History.{Keeps};
ghost use Rattle.team_core.specs.Events.{Answers, point_of, proposals};
ghost use Rattle.team_laws.specs.Logs.{Fits};
ghost use Rattle.log_model.specs.Events.{LogSays};
ghost use Rattle.log_lang.specs.Shown.{events_in, AreKnownEvents};
ghost use Rattle.play_model.specs.Played.{played, PlaysIn};
ghost use Rattle.session_book.specs.Shared.{book_rules, fits_in, shared_history};
ghost use Rattle.played_logs.specs.Told.{team_act, team_events, HasPlayed};

use crate::events::events_of;
use crate::lines::push_reply_line;
use apply_model::Status;
use class_table::Image;
use image_file::{append, write_image};
use log_lang::{Act, Event};
use rb_base::{Memory, Steps, Text};
use refusal_lines::push_script_line;
use session_book::SessionBook;
use std::alloc::Global;
use std::marker::Brand;
use std::mem::forget;
use std::sync::ledger::{Blank, Ledger};
use team_core::{Reply, Team};

/// The reply to an event.
fn answer<L: Ledger>(
    team: &mut Team<SessionBook>,
    event: Event,
    steps: &mut Steps<L>,
) -> Result<Reply<Text>, Memory>
    requires session { (1 ≤ event.session) × (event.session ≤ 64) }
    requires room { length team.old.journal < 10000 }
    requires fits { Fits (fits_in team.old.book.image.names) (team_act event.act) }
    ensures answers { IfOk result (λ reply. Answers (book_rules team.old.book.image.names) (point_of team.old.journal team.old.proposed.items (shared_history team.old.book)) event.session (team_act event.act) reply (point_of team.new.journal team.new.proposed.items (shared_history team.new.book))) }
    ensures keeps { Keeps (book_rules team.old.book.image.names) (fits_in team.old.book.image.names) (book_rules team.new.book.image.names) (fits_in team.new.book.image.names) }
{
    let session = event.session;
    match event.act {
        Act::Begin => Ok(team.begin(session)),
        Act::Propose(proposal) => match team.propose(session, proposal) {
            Ok(reply) => Ok(reply),
            Err(_) => Err(Memory),
        },
        Act::Commit => team.commit(session, steps),
        Act::Undo => team.undo(session, steps),
        Act::Redo => team.redo(session, steps),
    }
}

/// Appends the line of each event in order.
fn play_events<L: Ledger>(
    team: &mut Team<SessionBook>,
    events: Vec<Event>,
    steps: &mut Steps<L>,
    out: &mut Text,
) -> Result<(), Memory>
    requires known { AreKnownEvents team.old.book.image.names events.items }
    requires room { length team.old.journal + length events.items ≤ 10000 }
    ensures { OnOk result (HasPlayed team.old.book.image.names (point_of team.old.journal team.old.proposed.items (shared_history team.old.book)) (team_events events.items) team.new.book out.old out.new) }
{
    let mut number = 0;
    for event in events {
        number += 1;
        let reply = answer(team, event, steps)?;
        push_reply_line(number, &reply, out)?;
    }
    Ok(())
}

/// The sessions of a team that share the image.
fn team_of<L: Ledger>(
    alloc: Global,
    image: Image,
    steps: &mut Steps<L>,
) -> Result<Team<SessionBook>, Memory>
    requires closed { IsClosed image }
    requires orderly { IsOrderly image }
    requires self_known { HasSelf image.names }
    ensures names { IfOk result (λ team. team.book.image.names ≡ image.names) }
    ensures journal { IfOk result (λ team. team.journal ≡ []) }
    ensures proposed { IfOk result (λ team. (s : ℕ) → proposals team.proposed.items s ≡ []) }
    ensures history { IfOk result (λ team. history_of team.book.image team.book.log ≡ opened rules (image_of image)) }
{
    let mut image = image;
    image.reindex()?;
    let book = SessionBook::open(alloc, image, steps)?;
    match Team::open(alloc, book) {
        Ok(team) => Ok(team),
        Err(_) => Err(Memory),
    }
}

/// Appends the answer to events in an image.
fn play_counted<L: Ledger>(
    alloc: Global,
    image: Image,
    events: Vec<Event>,
    blank: Blank,
    out: &mut Text,
) -> Result<(), Memory>
    requires closed { IsClosed image }
    requires orderly { IsOrderly image }
    requires self_known { HasSelf image.names }
    requires known { AreKnownEvents image.names events.items }
    requires few { length events.items ≤ 10000 }
    requires empty { out.old ≡ [] }
    requires name { blank.name ≡ L.name }
    requires parts { blank.parts ≡ L.parts }
    requires some { 0 < L.parts }
    ensures { OnOk result (out.new ≡ played (image_of image) (events_in image.names events.items)) }
{
    let mut steps = Steps::<L>::new(blank);
    let mut team = team_of(alloc, image, &mut steps)?;
    play_events(&mut team, events, &mut steps, out)?;
    out.push_slice(b"--\n")?;
    write_image(alloc, team.book().image(), out)?;
    // The program ends soon, so the team is not taken apart piece by piece.
    forget(team);
    Ok(())
}

/// Appends the answer of `team` to a log in an image that was read. On want of memory a part of it may be appended.
fn play_and_tell(alloc: Global, image: Image, log: &[u8], out: &mut Text) -> Result<Status, Memory>
    requires orderly { IsOrderly image }
    requires live { AllLive image }
    requires empty { out.old ≡ [] }
    ensures { IfOk result (λ status. PlaysIn (image_of image) log.now status out.new) }
{
    let mut image = image;
    match events_of(alloc, log, &mut image) {
        Ok(events) => {
            play_counted::<Brand>(alloc, image, events, Blank::new(1), out)?;
            Ok(Status::Done)
        }
        Err(fault) => {
            push_script_line(fault, out)?;
            forget(image);
            Ok(Status::ScriptText)
        }
    }
}

/// Appends the answer of `team` to a log in an image that was read: the line of each event, and the file of the image at the
/// end; or the first line that is wrong.
///
/// # Errors
///
/// `Memory` if there is no memory for the events or for the answer; `out` is then as it was.
pub fn play_log(alloc: Global, image: Image, log: &[u8], out: &mut Text) -> Result<Status, Memory>
    requires orderly { IsOrderly image }
    requires live { AllLive image }
    requires empty { out.old ≡ [] }
    ensures answered { IfOk result (λ status. PlaysIn (image_of image) log.now status out.new) }
    ensures kept { OnErr result (out.new ≡ out.old) }
{
    let mut told = Text::new(alloc);
    let status = play_and_tell(alloc, image, log, &mut told)?;
    append(out, told)?;
    Ok(status)
}
