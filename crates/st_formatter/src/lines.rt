// Lines: their beginnings, comments and declarations.
ghost use Rattle.std.specs.Prelude.{◌≡◌, ◌<◌, [], ◌++◌, length, map, OnOk, codes, replicate};
ghost use Rattle.std.specs.List.{AllByRecursion};
ghost use Rattle.rb_base.specs.Names.{name_at};
ghost use Rattle.text_model.specs.Pieces.{pieces_behind};
ghost use Rattle.text_model.specs.Expressions.{note_lines, temporary_lines, parameters_text};

use crate::backward::Backward;
use crate::selectors::write_name;
use rb_base::{Memory, NameId, Names, Text};

/// Writes a line feed and the tabs of a level before the text.
pub(crate) fn start_line(level: usize, out: &mut Backward<'_, '_>) -> Result<(), Memory>
    ensures { OnOk result (out.new ≡ codes "\n" ++ (replicate level 9 ++ out.old)) }
{
    out.put_tabs(level)?;
    out.put_byte(b'\n')
}

/// Writes each comment on a line of its own before the text.
pub(crate) fn write_notes(
    notes: &[Text],
    level: usize,
    out: &mut Backward<'_, '_>,
) -> Result<(), Memory>
    ensures { OnOk result (out.new ≡ pieces_behind (codes "\n") (note_lines level notes.now) ++ out.old) }
{
    let mut at = notes.len();
    while at > 0 {
        at -= 1;
        out.put(notes[at].as_slice())?;
        start_line(level, out)?;
    }
    Ok(())
}

/// Writes each name behind a blank before the text.
pub(crate) fn write_spaced(
    names_in_order: &[NameId],
    names: &Names,
    out: &mut Backward<'_, '_>,
) -> Result<(), Memory>
    requires { AllByRecursion (λ n. n < length names.now) names_in_order.now }
    ensures { OnOk result (out.new ≡ pieces_behind (codes " ") (map (name_at names.now) names_in_order.now) ++ out.old) }
{
    let mut at = names_in_order.len();
    while at > 0 {
        at -= 1;
        write_name(names_in_order[at], names, out)?;
        out.put_byte(b' ')?;
    }
    Ok(())
}

/// Writes the line of the temporaries before the text, or nothing where there are none.
pub(crate) fn write_temporaries(
    temporaries: &[NameId],
    level: usize,
    names: &Names,
    out: &mut Backward<'_, '_>,
) -> Result<(), Memory>
    requires { AllByRecursion (λ n. n < length names.now) temporaries.now }
    ensures { OnOk result (out.new ≡ pieces_behind (codes "\n") (temporary_lines level (map (name_at names.now) temporaries.now)) ++ out.old) }
{
    if temporaries.is_empty() {
        return Ok(());
    }
    out.put(b" |")?;
    write_spaced(temporaries, names, out)?;
    out.put_byte(b'|')?;
    start_line(level, out)
}

/// Writes the parameters of a block and the bar behind them before the text, or nothing where there are none.
pub(crate) fn write_parameters(
    parameters: &[NameId],
    names: &Names,
    out: &mut Backward<'_, '_>,
) -> Result<(), Memory>
    requires { AllByRecursion (λ n. n < length names.now) parameters.now }
    ensures { OnOk result (out.new ≡ parameters_text (map (name_at names.now) parameters.now) ++ out.old) }
{
    if parameters.is_empty() {
        return Ok(());
    }
    out.put_byte(b'|')?;
    let mut at = parameters.len();
    while at > 0 {
        at -= 1;
        out.put_byte(b' ')?;
        write_name(parameters[at], names, out)?;
        out.put_byte(b':')?;
    }
    Ok(())
}
