// What a line of a script asks for.
ghost use Rattle.std.specs.Prelude.{◌≡◌, is_some, Ok, Err, IfOk, IfErr, IsTrue};
ghost use Rattle.event_trees.specs.Naming.{Grows};
ghost use Rattle.certificates.specs.Asked.{command_in, IsKnownRule, is_told};
ghost use Rattle.pattern_faults.specs.Told.{cause_of};
ghost use Rattle.rule_model.specs.RuleLines.{RuleLineSays};
ghost use Rattle.script_model.specs.Commands as script;
ghost use Rattle.script_lang.specs.declared.words.Wrong.TheVariants as wrong;
ghost use Rattle.script_lang.specs.Shown.{line_in, IsKnownLine};
ghost use Rattle.script_lang.specs.Read.{Asks};

use crate::additions::add_method;
use crate::lines::words_of;
use crate::parameters::add_parameter;
use crate::requests::request_of;
use crate::verb::LineVerb;
use crate::words::Wrong;
use certificates::{RuleLineFault, RuleRequest, rule_line};
use commands::Request;
use pattern_faults::PatternFault;
use rb_base::Names;
use st_parser::ParseFault;
use std::alloc::Global;

/// What a line of a script asks for.
#[derive(Drop)]
pub enum ScriptLine {
    /// A command, a composite, `undo` or `redo`.
    Request(Request),
    /// All code of users is rewritten by a rule that its certificate is to derive.
    Rule(RuleRequest),
}

/// Why the texts of a rule are refused: an argument is wrong, or memory is wanting.
fn wrong_text(fault: PatternFault) -> Wrong
    ensures { result ≡ wrong.Argument → IsTrue (is_some (cause_of fault)) }
{
    match fault {
        PatternFault::Text(fault) => match fault {
            ParseFault::Memory => Wrong::Memory,
            _ => Wrong::Argument,
        },
        _ => Wrong::Argument,
    }
}

/// Why a line asks for no rule: an argument is wrong, or memory is wanting.
fn wrong_rule(fault: RuleLineFault) -> Wrong
    ensures { result ≡ wrong.Argument → IsTrue (is_told fault) }
{
    match fault {
        RuleLineFault::Pattern(fault) => wrong_text(fault),
        RuleLineFault::Replacement(fault) => wrong_text(fault),
        RuleLineFault::Memory => Wrong::Memory,
        _ => Wrong::Argument,
    }
}

/// The rule and the certificate that stand behind the word `applyRule`.
fn rule_behind(alloc: Global, text: &[u8], names: &mut Names) -> Result<RuleRequest, Wrong>
    ensures said { IfOk result (λ r. RuleLineSays text.now (Ok (command_in names.new r))) }
    ensures known { IfOk result (λ r. IsKnownRule names.new r) }
    ensures wrong { IfErr result (λ e. e ≡ wrong.Argument → RuleLineSays text.now (Err tt)) }
    ensures grows { Grows names.old names.new }
{
    match rule_line(alloc, text, names) {
        Ok(rule) => Ok(rule),
        Err(fault) => Err(wrong_rule(fault)),
    }
}

/// What a command asks for with the text behind its word.
pub(crate) fn asked_behind(
    alloc: Global,
    command: LineVerb,
    text: &[u8],
    names: &mut Names,
) -> Result<ScriptLine, Wrong>
    ensures said { IfOk result (λ asked. Asks command text.now (Ok (line_in names.new asked))) }
    ensures known { IfOk result (λ asked. IsKnownLine names.new asked) }
    ensures wrong { IfErr result (λ e. e ≡ wrong.Argument → Asks command text.now (Err script.BadArgument)) }
    ensures grows { Grows names.old names.new }
{
    match command {
        LineVerb::ApplyRule => {
            let rule = rule_behind(alloc, text, names)?;
            Ok(ScriptLine::Rule(rule))
        }
        LineVerb::AddMethod => {
            let request = add_method(alloc, text, names)?;
            Ok(ScriptLine::Request(request))
        }
        LineVerb::AddParameter => {
            let request = add_parameter(alloc, text, names)?;
            Ok(ScriptLine::Request(request))
        }
        LineVerb::Words(verb) => {
            let words = words_of(alloc, text)?;
            let request = request_of(alloc, verb, words.as_slice(), names)?;
            Ok(ScriptLine::Request(request))
        }
    }
}
