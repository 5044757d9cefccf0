// The lines of a script, read and performed.
ghost use Rattle.std.specs.Prelude.{◌≡◌, ℕ, Ok, Err, Some, MatchOption, ◌++◌, IfOk, IfErr, OnOk, OnErr};
ghost use Rattle.event_trees.specs.Naming.{Grows};
ghost use Rattle.class_table.specs.View.{image_of};
ghost use Rattle.class_table.specs.Valid.{IsOrderly};
ghost use Rattle.live_slots.specs.Live.{AllLive};
ghost use Rattle.wider_slots.specs.Closed.{IsClosed};
ghost use Rattle.history_model.specs.History.{stepped};
ghost use Rattle.history_model.specs.Verdicts.{judged_from};
ghost use Rattle.ruled_model.specs.RuledScripts.{Refusal, ruled};
ghost use Rattle.script_model.specs.Commands.{Cause};
ghost use Rattle.script_model.specs.Scripts.{Says, IsRefused};
ghost use Rattle.script_lang.specs.Shown.{line_in, lines_in, IsKnownLine, AreKnown, fault_shown};
ghost use Rattle.commands.specs.Views.{HasSelf};
ghost use Rattle.apply_model.specs.Lines.{refusal_line};
ghost use Rattle.session.specs.Log.{IsLogOf};
ghost use Rattle.session.specs.History.{history_of};
ghost use Rattle.applied_scripts.specs.Changed.{IsAfterLines};
ghost use Rattle.applied_scripts.specs.Refused.{refusal_shown, StopsAt};

use certificates::Certificate;
use class_table::Image;
use commands::Condition;
use rb_base::{Memory, Names, Steps, Text};
use refusal_lines::{push_refusal, push_underived};
use ruled_laws::law_without_rules;
use script_lang::{ScriptFault, ScriptLine, parse_script};
use session::{RuleRefusal, Session, StepRefusal};
use std::alloc::Global;
use std::sync::ledger::Ledger;

/// Why not all lines are performed.
#[derive(Drop)]
pub enum Stop {
    /// The line of this number, from 1, is refused, since a condition of it is false; this is the first one.
    Refused {
        /// The number of the line among those that say something, from 1.
        number: usize,
        /// The first of its conditions that is false.
        condition: Condition,
    },
    /// The line of this number asks for a rule that its certificate does not derive; this is the first that is refused.
    NotDerived {
        /// The number of the line among those that say something, from 1.
        number: usize,
        /// The certificate of the rule.
        certificate: Certificate,
    },
    /// Want of memory.
    Memory,
}

/// Adds `self` to the names, where it is new. The error is want of memory.
fn intern_self(names: &mut Names) -> Result<(), Memory>
    ensures self_known { OnOk result (HasSelf names.new) }
    ensures grows { Grows names.old names.new }
{
    let _self_name = names.intern(b"self")?;
    Ok(())
}

/// Reads the lines of a script. Names that are new are added to the table, and so is `self`.
fn lines_and_self(
    alloc: Global,
    script: &[u8],
    names: &mut Names,
) -> Result<Vec<ScriptLine>, ScriptFault>
    ensures grows { Grows names.old names.new }
    ensures self_known { OnOk result (HasSelf names.new) }
    ensures said { IfOk result (λ lines. Says script.now (lines_in names.new lines.items)) }
    ensures known { IfOk result (λ lines. AreKnown names.new lines.items) }
    ensures fault { IfErr result (λ f. (n : ℕ) (cause : Cause) → fault_shown f ≡ Some (n, cause) → IsRefused script.now n cause) }
{
    let lines = parse_script(alloc, script, names)?;
    intern_self(names)?;
    Ok(lines)
}

/// Reads the lines of a script with the names of an image, to which those that are new are added, and `self`.
fn lines_with_names(
    alloc: Global,
    script: &[u8],
    image: &mut Image,
) -> Result<Vec<ScriptLine>, ScriptFault>
    ensures rest { image.new ≡ record image.old { names = image.new.names } }
    ensures grows { Grows image.old.names image.new.names }
    ensures self_known { OnOk result (HasSelf image.new.names) }
    ensures said { IfOk result (λ lines. Says script.now (lines_in image.new.names lines.items)) }
    ensures known { IfOk result (λ lines. AreKnown image.new.names lines.items) }
    ensures fault { IfErr result (λ f. (n : ℕ) (cause : Cause) → fault_shown f ≡ Some (n, cause) → IsRefused script.now n cause) }
{
    lines_and_self(alloc, script, image.names_mut())
}

/// Reads the lines of a script. Names that are new are added to those of the image, which for the rest is as it was. The errors
/// are those of `parse_script`.
pub fn script_lines(
    alloc: Global,
    script: &[u8],
    image: &mut Image,
) -> Result<Vec<ScriptLine>, ScriptFault>
    requires orderly { IsOrderly image.old }
    requires live { AllLive image.old }
    ensures image { image_of image.new ≡ image_of image.old }
    ensures grows { Grows image.old.names image.new.names }
    ensures orderly { IsOrderly image.new }
    ensures live { AllLive image.new }
    ensures closed { IsClosed image.new }
    ensures self_known { OnOk result (HasSelf image.new.names) }
    ensures said { IfOk result (λ lines. Says script.now (lines_in image.new.names lines.items)) }
    ensures known { IfOk result (λ lines. AreKnown image.new.names lines.items) }
    ensures fault { IfErr result (λ f. (n : ℕ) (cause : Cause) → fault_shown f ≡ Some (n, cause) → IsRefused script.now n cause) }
{
    let lines = lines_with_names(alloc, script, image);
    let _count = image.names().len();
    lines
}

/// Appends the line that tells why a script stops. Want of memory is no refusal, and is given back.
pub fn push_stop(stop: &Stop, names: &Names, out: &mut Text) -> Result<(), Memory>
    ensures { OnOk result (MatchOption (refusal_shown names.now stop.now) ⊥ (λ r. out.new ≡ out.old ++ refusal_line r)) }
{
    match stop {
        Stop::Refused { number, condition } => push_refusal(*number, condition, names, out),
        Stop::NotDerived {
            number,
            certificate,
        } => push_underived(*number, certificate, out),
        Stop::Memory => Err(Memory),
    }
}

/// Performs what the line of a number asks for, or tells why it is refused.
fn perform_line<L: Ledger>(
    session: &mut Session,
    image: &mut Image,
    line: ScriptLine,
    number: usize,
    steps: &mut Steps<L>,
) -> Result<(), Stop>
    requires log { IsLogOf image.old session.old }
    requires self_known { HasSelf image.old.names }
    requires known { IsKnownLine image.old.names line }
    ensures log { IsLogOf image.new session.new }
    ensures names { Grows image.old.names image.new.names }
    ensures done { OnOk result (stepped ruled (history_of image.old session.old) (line_in image.old.names line) ≡ Ok (history_of image.new session.new)) }
    ensures same { OnErr result (history_of image.new session.new ≡ history_of image.old session.old) }
    ensures stopped { IfErr result (λ stop. (r : Refusal) → refusal_shown image.new.names stop ≡ Some r →
        (r.number ≡ number) × (stepped ruled (history_of image.old session.old) (line_in image.old.names line) ≡ Err r.condition)) }
{
    law_without_rules();
    match line {
        ScriptLine::Request(request) => match session.step(image, request, steps) {
            Ok(()) => Ok(()),
            Err(StepRefusal::Condition(condition)) => Err(Stop::Refused { number, condition }),
            Err(StepRefusal::Memory) => Err(Stop::Memory),
        },
        ScriptLine::Rule(rule) => match session.apply_rule(image, &rule, steps) {
            Ok(()) => Ok(()),
            Err(RuleRefusal::Condition(condition)) => Err(Stop::Refused { number, condition }),
            Err(RuleRefusal::NotDerived) => Err(Stop::NotDerived {
                number,
                certificate: rule.certificate,
            }),
            Err(RuleRefusal::Memory) => Err(Stop::Memory),
        },
    }
}

/// Performs what the lines ask for, in order, up to the first one that is refused or for which memory is wanting, and tells why.
/// The image is then the one after the lines before it.
pub fn perform_all<L: Ledger>(
    session: &mut Session,
    image: &mut Image,
    lines: Vec<ScriptLine>,
    steps: &mut Steps<L>,
) -> Result<(), Stop>
    requires log { IsLogOf image.old session.old }
    requires self_known { HasSelf image.old.names }
    requires known { AreKnown image.old.names lines.items }
    ensures log { IsLogOf image.new session.new }
    ensures names { Grows image.old.names image.new.names }
    ensures self_known { HasSelf image.new.names }
    ensures done { OnOk result (judged_from ruled 1 (history_of image.old session.old) (lines_in image.old.names lines.items) ≡ Ok (history_of image.new session.new)) }
    ensures part { IsAfterLines (history_of image.old session.old) (lines_in image.old.names lines.items) (history_of image.new session.new) }
    ensures stopped { IfErr result (λ stop. (r : Refusal) → refusal_shown image.new.names stop ≡ Some r → judged_from ruled 1 (history_of image.old session.old) (lines_in image.old.names lines.items) ≡ Err r) }
    ensures reached { IfErr result (λ stop. (r : Refusal) → refusal_shown image.new.names stop ≡ Some r →
        StopsAt (history_of image.old session.old) (lines_in image.old.names lines.items) r (history_of image.new session.new)) }
{
    let mut number = 0;
    for line in lines {
        number += 1;
        perform_line(session, image, line, number, steps)?;
    }
    Ok(())
}
