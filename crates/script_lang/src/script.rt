// The reader of scripts.
ghost use Rattle.std.specs.Prelude.{◌≡◌, ◌∷◌, ◌++◌, [], ℕ, List, length, Some, IfOk, IfErr, OnOk};
ghost use Rattle.event_trees.specs.Naming.{Grows};
ghost use Rattle.script_model.specs.Lines.{lines_of};
ghost use Rattle.script_model.specs.Commands as script;
ghost use Rattle.script_model.specs.Scripts.{IsWrong, Say, Says, IsRefused};
ghost use Rattle.script_lang.specs.Shown.{lines_in, AreKnown, texts, fault_shown};
ghost use Rattle.script_lang.specs.Read.{HasAsked};

use crate::additions::split_word;
use crate::asked::{ScriptLine, asked_behind};
use crate::fault::ScriptFault;
use crate::lines::{is_skipped, lines_of};
use crate::verb::line_verb;
use crate::words::Wrong;
use rb_base::{Memory, Names};
use std::alloc::Global;

/// The most commands of a script.
const COMMAND_LIMIT: usize = 10000;

/// Puts what a line asks for behind what the lines before it ask for.
fn push(requests: &mut Vec<ScriptLine>, asked: ScriptLine) -> Result<(), Memory>
    ensures { OnOk result (requests.new.items ≡ requests.old.items ++ asked ∷ []) }
{
    requests.push(asked)?;
    Ok(())
}

/// Reads the line of a number, and puts what it asks for behind what the lines before it ask for.
fn read_line(
    alloc: Global,
    text: &[u8],
    line: usize,
    requests: &mut Vec<ScriptLine>,
    names: &mut Names,
) -> Result<(), ScriptFault>
    ensures ok { OnOk result (HasAsked names.new text.now requests.old.items requests.new.items) }
    ensures fault { IfErr result (λ f. (n : ℕ) (cause : script.Cause) → fault_shown f ≡ Some (n, cause) → (n ≡ line) × IsWrong text.now (length requests.old.items) cause) }
    ensures grows { Grows names.old names.new }
{
    let (word, rest) = split_word(text);
    let Some(command) = line_verb(word) else {
        return Err(ScriptFault::UnknownCommand { line });
    };
    match asked_behind(alloc, command, rest, names) {
        Ok(asked) => push(requests, asked)?,
        Err(Wrong::Argument) => return Err(ScriptFault::BadArgument { line }),
        Err(Wrong::Memory) => return Err(ScriptFault::Memory),
    }
    if requests.len() > COMMAND_LIMIT {
        return Err(ScriptFault::TooMany { line });
    }
    Ok(())
}

/// What the lines of a text ask for, from the first one on.
fn read_lines(
    alloc: Global,
    lines: &[&[u8]],
    names: &mut Names,
) -> Result<Vec<ScriptLine>, ScriptFault>
    ensures ok { IfOk result (λ requests. Say (texts lines.now) (lines_in names.new requests.items)) }
    ensures known { IfOk result (λ requests. AreKnown names.new requests.items) }
    ensures fault { IfErr result (λ f. (n : ℕ) (cause : script.Cause) → fault_shown f ≡ Some (n, cause) → (text : List ℕ) → lines_of text ≡ texts lines.now → IsRefused text n cause) }
    ensures grows { Grows names.old names.new }
{
    let mut requests = Vec::new(alloc);
    let mut number = 0;
    for line in lines {
        number += 1;
        if !is_skipped(line) {
            read_line(alloc, line, number, &mut requests, names)?;
        }
    }
    Ok(requests)
}

/// What a script asks for (Roberts 1999), in order, or its first line that is wrong, as `ScriptFault` tells.
///
/// A line ends at a line feed, and a carriage return before it is no part of the line. Words stand between blanks. A line
/// that is blank or begins with two minus signs says nothing. There are at most 10,000 commands. The names of the commands
/// are numbers in `names`, to whose end those that are new are added. Whether there is a class, a variable or a selector of
/// a name is not told.
///
/// A line of `addMethod` has the text of a method behind its fourth word, to the end of the line, and one of `addParameter`
/// a literal. One of `applyRule` has a certificate behind its first word, and then the texts of a pattern and its replacement, with
/// an arrow between.
///
/// On any error `names` may hold the names of the commands before it, and of the words before the one that is wrong. The
/// time and the memory that it takes from `alloc` are linear in the text.
pub fn parse_script(
    alloc: Global,
    text: &[u8],
    names: &mut Names,
) -> Result<Vec<ScriptLine>, ScriptFault>
    ensures ok { IfOk result (λ requests. Says text.now (lines_in names.new requests.items)) }
    ensures known { IfOk result (λ requests. AreKnown names.new requests.items) }
    ensures fault { IfErr result (λ f. (n : ℕ) (cause : script.Cause) → fault_shown f ≡ Some (n, cause) → IsRefused text.now n cause) }
    ensures grows { Grows names.old names.new }
{
    let lines = lines_of(alloc, text)?;
    read_lines(alloc, lines.as_slice(), names)
}
