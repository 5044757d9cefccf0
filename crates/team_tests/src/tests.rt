// Logs over a book of numbers, with the replies read by hand.
ghost use Rattle.std.specs.Prelude.{◌≡◌, ◌<◌};

use crate::numbers::{Numbers, Why};
use rb_base::{Memory, Steps};
use std::alloc::Global;
use std::marker::Brand;
use std::sync::ledger::{Blank, Ledger};
use std::test::Fail;
use team_core::{Reply, Team};

#[derive(Clone, Copy)]
enum Act {
    Begin,
    Propose(u64),
    Commit,
    Undo,
    Redo,
}

fn answer<L: Ledger>(
    team: &mut Team<Numbers>,
    session: u8,
    act: Act,
    steps: &mut Steps<L>,
) -> Result<Reply<Why>, Memory> {
    if session == 0 || session > 64 || team.journal().len() >= 10_000 {
        return Err(Memory);
    }
    match act {
        Act::Begin => Ok(team.begin(session)),
        Act::Propose(command) => match team.propose(session, command) {
            Ok(reply) => Ok(reply),
            Err(_) => Err(Memory),
        },
        Act::Commit => team.commit(session, steps),
        Act::Undo => team.undo(session, steps),
        Act::Redo => team.redo(session, steps),
    }
}

// Whether the events of the log have these replies, and lead to this number.
fn plays<L: Ledger>(blank: Blank, alloc: Global, log: &[(u8, Act, Reply<Why>)], last: u64) -> bool
    requires name { blank.name ≡ L.name }
    requires parts { blank.parts ≡ L.parts }
    requires some { 0 < L.parts }
{
    let mut steps: Steps<L> = Steps::new(blank);
    let Ok(mut team) = Team::open(alloc, Numbers::new(alloc, 0)) else {
        return false;
    };
    for (session, act, wanted) in log {
        match answer(&mut team, *session, *act, &mut steps) {
            Ok(reply) => {
                if reply != *wanted {
                    return false;
                }
            }
            Err(_) => return false,
        }
    }
    team.book().number() == last
}

fn leads(alloc: Global, log: &[(u8, Act, Reply<Why>)], last: u64) -> bool {
    plays::<Brand>(Blank::new(1), alloc, log, last)
}

fn accepted(revision: u64) -> Reply<Why> {
    Reply::Accepted { revision }
}

fn refused(nth: usize, cause: Why) -> Reply<Why> {
    Reply::Refused { nth, cause }
}

// A commit of a session that began before another one moved the book is stale.
fn late_commit() -> [(u8, Act, Reply<Why>); 10] {
    let stale = Reply::Stale {
        revision: 1,
        event: 5,
    };
    [
        (1, Act::Begin, accepted(0)),
        (2, Act::Begin, accepted(0)),
        (1, Act::Propose(5), accepted(0)),
        (2, Act::Propose(7), accepted(0)),
        (1, Act::Commit, accepted(1)),
        (2, Act::Commit, stale),
        (2, Act::Begin, accepted(1)),
        (2, Act::Propose(7), accepted(1)),
        (2, Act::Commit, accepted(2)),
        (1, Act::Undo, accepted(3)),
    ]
}

// What cannot be done is refused for its first cause, and the session is idle then.
fn refusals() -> [(u8, Act, Reply<Why>); 9] {
    [
        (1, Act::Commit, Reply::NotOpen),
        (1, Act::Undo, refused(1, Why::First)),
        (1, Act::Begin, accepted(0)),
        (1, Act::Undo, Reply::AlreadyOpen),
        (64, Act::Redo, refused(1, Why::Last)),
        (1, Act::Propose(60), accepted(0)),
        (1, Act::Propose(50), accepted(0)),
        (1, Act::Commit, refused(2, Why::TooLarge)),
        (1, Act::Propose(1), Reply::NotOpen),
    ]
}

#[test]
fn logs_have_their_replies(rt: HostRuntime) -> Result<(), Fail> {
    let late = late_commit();
    let refusals = refusals();
    for (log, last) in [(late.as_slice(), 5), (refusals.as_slice(), 0)] {
        assert!(rt; leads(rt.alloc(), log, last));
    }
    Ok(())
}
