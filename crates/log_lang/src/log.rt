// The reader of logs.
ghost use Rattle.std.specs.Prelude.{◌≡◌, ◌≤◌, ◌∷◌, ◌++◌, [], ℕ, List, length, option_map, Some, None, Ok, Err, IfOk, IfErr, IfSome, OnOk};
ghost use Rattle.event_trees.specs.Naming.{Grows};
ghost use Rattle.script_model.specs.Lines.{lines_of};
ghost use Rattle.script_model.specs.Additions as added;
ghost use Rattle.script_model.specs.Commands as script;
ghost use Rattle.proposals.specs.Proposed.{IsNamed};
ghost use Rattle.script_lang.specs.Shown.{line_in, lines_in, IsKnownLine, AreKnown, texts, fault_shown};
ghost use Rattle.log_model.specs.Events as log;
ghost use Rattle.log_lang.specs.Shown.{act_in, IsKnownAct, event_in, IsKnownEvent, events_in, AreKnownEvents, answer_of, HasAsked};

use crate::event::{Act, Event};
use command_words::number_of;
use commands::Request;
use proposals::{Asked, Proposal};
use rb_base::{Memory, Names};
use script_lang::{
    ScriptFault, ScriptLine, is_blank_line, is_skipped, lines_of, parse_script, same_text,
    split_word,
};
use std::alloc::Global;

/// The most events of a log.
const EVENT_LIMIT: usize = 10_000;

/// The highest number of a session.
const LAST_SESSION: u32 = 64;

/// What a session does by a word that stands alone.
fn lone_act(word: &[u8]) -> Option<Act>
    ensures said { (names : List (List ℕ)) → option_map (act_in names) result ≡ log.lone_act word.now }
    ensures known { (names : List (List ℕ)) → IfSome result (IsKnownAct names) }
{
    if same_text(word, b"begin") {
        Some(Act::Begin)
    } else if same_text(word, b"commit") {
        Some(Act::Commit)
    } else if same_text(word, b"undo") {
        Some(Act::Undo)
    } else if same_text(word, b"redo") {
        Some(Act::Redo)
    } else {
        None
    }
}

/// What a line proposes: neither undo nor redo is proposed.
fn proposed_by(line: ScriptLine) -> Option<Asked>
    ensures said { (names : List (List ℕ)) → log.proposing (line_in names line ∷ []) ≡ answer_of names result }
    ensures known { (names : List (List ℕ)) → IsKnownLine names line → IfSome result (IsNamed (length names)) }
{
    match line {
        ScriptLine::Request(Request::Perform(action)) => Some(Asked::Action(action)),
        ScriptLine::Request(_) => None,
        ScriptLine::Rule(rule) => Some(Asked::Rule(rule)),
    }
}

/// What is proposed by lines, if it is all that they ask for.
fn only_asked(lines: Vec<ScriptLine>) -> Option<Asked>
    ensures said { (names : List (List ℕ)) → log.proposing (lines_in names lines.items) ≡ answer_of names result }
    ensures known { (names : List (List ℕ)) → AreKnown names lines.items → IfSome result (IsNamed (length names)) }
{
    let mut lines = lines;
    let last = lines.pop()?;
    if !lines.is_empty() {
        return None;
    }
    proposed_by(last)
}

/// The fault at the line of a number.
fn at_line(fault: ScriptFault, line: usize) -> ScriptFault
    ensures { fault_shown result ≡ option_map (λ f. (line, f.1)) (fault_shown fault) }
{
    match fault {
        ScriptFault::UnknownCommand { .. } => ScriptFault::UnknownCommand { line },
        ScriptFault::BadArgument { .. } => ScriptFault::BadArgument { line },
        ScriptFault::TooMany { .. } => ScriptFault::TooMany { line },
        ScriptFault::Memory => ScriptFault::Memory,
    }
}

/// What a session proposes by the text after `propose`, in the line of a number.
fn proposal(alloc: Global, text: &[u8], line: usize, names: &mut Names) -> Result<Act, ScriptFault>
    ensures said { IfOk result (λ act. (word : List ℕ) → log.IsPropose word → log.ActSays word text.now (Ok (act_in names.new act))) }
    ensures known { IfOk result (IsKnownAct names.new) }
    ensures fault { IfErr result (λ f. (n : ℕ) (cause : script.Cause) → fault_shown f ≡ Some (n, cause) → (n ≡ line) × ((word : List ℕ) → log.IsPropose word → log.ActSays word text.now (Err cause))) }
    ensures grows { Grows names.old names.new }
{
    match parse_script(alloc, text, names) {
        Ok(lines) => match only_asked(lines) {
            Some(asked) => Ok(Act::Propose(Proposal::new(asked, names.len()))),
            None => Err(ScriptFault::BadArgument { line }),
        },
        Err(fault) => Err(at_line(fault, line)),
    }
}

/// What a session does by a word and the text after it, in the line of a number.
fn act_of(alloc: Global, text: &[u8], line: usize, names: &mut Names) -> Result<Act, ScriptFault>
    ensures said { IfOk result (λ act. log.ActSays (added.first_word text.now) (added.behind_word text.now) (Ok (act_in names.new act))) }
    ensures known { IfOk result (IsKnownAct names.new) }
    ensures fault { IfErr result (λ f. (n : ℕ) (cause : script.Cause) → fault_shown f ≡ Some (n, cause) → (n ≡ line) × log.ActSays (added.first_word text.now) (added.behind_word text.now) (Err cause)) }
    ensures grows { Grows names.old names.new }
{
    let (word, rest) = split_word(text);
    if same_text(word, b"propose") {
        return proposal(alloc, rest, line, names);
    }
    match lone_act(word) {
        None => Err(ScriptFault::UnknownCommand { line }),
        Some(act) => {
            if is_blank_line(rest) {
                Ok(act)
            } else {
                Err(ScriptFault::BadArgument { line })
            }
        }
    }
}

/// The event that the line of a number asks for.
fn event_of(
    alloc: Global,
    text: &[u8],
    line: usize,
    names: &mut Names,
) -> Result<Event, ScriptFault>
    ensures said { IfOk result (λ event. log.EventSays text.now (Ok (event_in names.new event))) }
    ensures known { IfOk result (IsKnownEvent names.new) }
    ensures fault { IfErr result (λ f. (n : ℕ) (cause : script.Cause) → fault_shown f ≡ Some (n, cause) → (n ≡ line) × log.EventSays text.now (Err cause)) }
    ensures grows { Grows names.old names.new }
{
    let (word, rest) = split_word(text);
    let Some(session) = number_of(word, LAST_SESSION) else {
        return Err(ScriptFault::BadArgument { line });
    };
    if is_blank_line(rest) {
        return Err(ScriptFault::BadArgument { line });
    }
    let act = act_of(alloc, rest, line, names)?;
    Ok(Event {
        session: session as u8,
        act,
    })
}

/// Puts an event after others.
fn push(events: &mut Vec<Event>, event: Event) -> Result<(), Memory>
    ensures { OnOk result (events.new.items ≡ events.old.items ++ event ∷ []) }
{
    events.push(event)?;
    Ok(())
}

/// Reads the line of a number, and puts the event that it asks for after those of the lines before it.
fn read_event(
    alloc: Global,
    text: &[u8],
    line: usize,
    events: &mut Vec<Event>,
    names: &mut Names,
) -> Result<(), ScriptFault>
    ensures ok { OnOk result (HasAsked names.new text.now events.old.items events.new.items) }
    ensures fault { IfErr result (λ f. (n : ℕ) (cause : script.Cause) → fault_shown f ≡ Some (n, cause) → (n ≡ line) × log.IsWrong text.now (length events.old.items) cause) }
    ensures grows { Grows names.old names.new }
{
    let event = event_of(alloc, text, line, names)?;
    push(events, event)?;
    if events.len() > EVENT_LIMIT {
        return Err(ScriptFault::TooMany { line });
    }
    Ok(())
}

/// What the lines of a text ask for, from the first one on.
fn read_events(alloc: Global, lines: &[&[u8]], names: &mut Names) -> Result<Vec<Event>, ScriptFault>
    ensures ok { IfOk result (λ events. log.Say (texts lines.now) (events_in names.new events.items)) }
    ensures known { IfOk result (λ events. AreKnownEvents names.new events.items) }
    ensures fault { IfErr result (λ f. (n : ℕ) (cause : script.Cause) → fault_shown f ≡ Some (n, cause) → (text : List ℕ) → lines_of text ≡ texts lines.now → log.IsLogRefused text n cause) }
    ensures grows { Grows names.old names.new }
{
    let mut events = Vec::new(alloc);
    let mut number = 0;
    for line in lines {
        number += 1;
        if !is_skipped(line) {
            read_event(alloc, line, number, &mut events, names)?;
        }
    }
    Ok(events)
}

/// What a log asks for: events in order, or its first line that is wrong, as `ScriptFault` tells.
///
/// Its lines and words are those of scripts. A line has the number of a session, from 1 to 64, and then `begin`, `commit`,
/// `undo` or `redo`, or `propose` and a line of a script, which is neither `undo` nor `redo`. There are at most 10,000 events.
/// The names of the commands are numbers in `names`, to whose end those that are new are added.
///
/// On any error `names` may hold the names of the lines before it, and of the words before the one that is wrong. The time and
/// the memory that it takes from `alloc` are linear in the text.
pub fn parse_log(alloc: Global, text: &[u8], names: &mut Names) -> Result<Vec<Event>, ScriptFault>
    ensures ok { IfOk result (λ events. log.LogSays text.now (events_in names.new events.items)) }
    ensures known { IfOk result (λ events. AreKnownEvents names.new events.items) }
    ensures fault { IfErr result (λ f. (n : ℕ) (cause : script.Cause) → fault_shown f ≡ Some (n, cause) → log.IsLogRefused text.now n cause) }
    ensures grows { Grows names.old names.new }
{
    let lines = lines_of(alloc, text)?;
    read_events(alloc, lines.as_slice(), names)
}
