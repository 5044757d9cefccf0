// The lines of a refused script and of a refused command.
ghost use Rattle.std.specs.Prelude.{◌≡◌, ◌++◌, codes, map, OnOk, OnErr, MatchOption};
ghost use Rattle.std.specs.Fmt.{decimal};
ghost use Rattle.rb_base.specs.Names.{name_at};
ghost use Rattle.command_numbers.specs.MappedCommands.{map_condition};
ghost use Rattle.commands.specs.Views.{condition_of};
ghost use Rattle.certificates.specs.Shown.{step_shown};
ghost use Rattle.rule_model.specs.RuleCommands.{Unmet, Derived};
ghost use Rattle.script_lang.specs.Shown.{fault_shown};
ghost use Rattle.text_model.specs.Pieces.{pieces_behind};
ghost use Rattle.apply_model.specs.Lines.{line, reason_words, refusal_line, script_line};
ghost use Rattle.refusal_lines.specs.Begun.{BeginsWith};

use crate::certificate::push_certificate;
use crate::conditions::push_condition;
use crate::words::push_number;
use certificates::Certificate;
use commands::Condition;
use rb_base::{Memory, Names, Text};
use script_lang::ScriptFault;

/// Appends the line of a command that is refused: its number in the script, from 1, and its first condition that is false.
/// On want of memory some bytes of the line may be appended.
pub fn push_refusal(
    number: usize,
    condition: &Condition,
    names: &Names,
    out: &mut Text,
) -> Result<(), Memory>
    ensures told { OnOk result (out.new ≡ out.old ++ refusal_line (record { number = number; condition = Unmet (map_condition (name_at names.now) (condition_of condition.now)) })) }
    ensures begins { BeginsWith out.new out.old }
{
    out.push_slice(b"refused ")?;
    push_number(number, out)?;
    push_condition(*condition, names, out)?;
    out.push_slice(b"\n")
}

/// Appends the words that refuse a rule which its certificate does not derive, each after a blank: C45, its name and the
/// certificate. On want of memory `out` is as it was.
pub fn push_not_derived(certificate: &Certificate, out: &mut Text) -> Result<(), Memory>
    ensures told { OnOk result (out.new ≡ out.old ++ pieces_behind (codes " ") (reason_words (Derived (map step_shown certificate.now.steps.items)))) }
    ensures kept { OnErr result (out.new ≡ out.old) }
{
    let mut words = Text::new(*certificate.steps.allocator());
    words.push_slice(b" C45 Derived ")?;
    push_certificate(certificate, &mut words)?;
    out.push_slice(words.as_slice())
}

/// Appends the line of a rule that its certificate does not derive: its number in the script, from 1, and the certificate. On want
/// of memory `out` is as it was.
pub fn push_underived(
    number: usize,
    certificate: &Certificate,
    out: &mut Text,
) -> Result<(), Memory>
    ensures told { OnOk result (out.new ≡ out.old ++ refusal_line (record { number = number; condition = Derived (map step_shown certificate.now.steps.items) })) }
    ensures kept { OnErr result (out.new ≡ out.old) }
{
    let mut line = Text::new(*certificate.steps.allocator());
    line.push_slice(b"refused ")?;
    push_number(number, &mut line)?;
    push_not_derived(certificate, &mut line)?;
    line.push_slice(b"\n")?;
    out.push_slice(line.as_slice())
}

/// Appends the line of a script whose line of this number is wrong, with the name of the cause.
fn push_cause(number: usize, cause: &[u8], out: &mut Text) -> Result<(), Memory>
    ensures told { OnOk result (out.new ≡ out.old ++ line (codes "script line " ++ decimal number ++ codes " " ++ cause.now)) }
    ensures begins { BeginsWith out.new out.old }
{
    out.push_slice(b"script line ")?;
    push_number(number, out)?;
    out.push_slice(b" ")?;
    out.push_slice(cause)?;
    out.push_slice(b"\n")
}

/// Appends the line of a script that is wrong: the number of its first wrong line, and why that is wrong. Want of memory is
/// no fault of a script, and is given back. On want of memory some bytes of the line may be appended.
pub fn push_script_line(fault: ScriptFault, out: &mut Text) -> Result<(), Memory>
    ensures told { OnOk result (MatchOption (fault_shown fault) ⊥ (λ f. out.new ≡ out.old ++ script_line f.0 f.1)) }
    ensures begins { BeginsWith out.new out.old }
{
    match fault {
        ScriptFault::UnknownCommand { line } => push_cause(line, b"UnknownCommand", out),
        ScriptFault::BadArgument { line } => push_cause(line, b"BadArgument", out),
        ScriptFault::TooMany { line } => push_cause(line, b"TooMany", out),
        ScriptFault::Memory => Err(Memory),
    }
}
