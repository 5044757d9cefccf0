// The lines of what is in the way of a single command.
ghost use Rattle.std.specs.Prelude.{◌≡◌, ◌++◌, ◌∷◌, [], ◌<◌, ℕ, List, codes, map, IfOk};
ghost use Rattle.rb_base.specs.Names.{name_at};
ghost use Rattle.image_model.specs.Image.{EntryOf, ImageOf};
ghost use Rattle.class_table.specs.Slots.{Slots};
ghost use Rattle.class_table.specs.Valid.{IsOrderly};
ghost use Rattle.class_table.specs.View.{image_of, number_image};
ghost use Rattle.command_model.specs.CodeEffects.{part_at};
ghost use Rattle.commands.specs.Views.{asked_by, command_of, condition_of, HasSelf};
ghost use Rattle.refusal_witnesses.specs.Lines.{line_of, AreLines, IsLine};
ghost use Rattle.witness_lists.specs.Views.{shown, witness_of};
ghost use Rattle.witness_numbers.specs.MappedWitnesses.{map_witness};
ghost use Rattle.use_witnesses.specs.Brought.{as_in, brought_heights};
ghost use Rattle.why_model.specs.Explained.{AreLinesOf};
ghost use Rattle.explained_scripts.specs.Brought.{brought_after, brought_before, brought_reflections};
ghost use Rattle.explained_scripts.specs.Families.{standing, IsMoving};
ghost use Rattle.explained_scripts.specs.Lines.{title_named, IsTitled};
ghost use Rattle.explained_scripts.specs.Refused.{judging_of, reason_text, IsKnownRefused, IsMissing};
ghost use Rattle.st_tree.specs.View.{method_of};
ghost use Rattle.command_model.specs.MethodEffects.{new_method};
ghost use Rattle.refusal_witnesses.specs.NameWitnesses.{reflections_in};
ghost use Rattle.refusal_witnesses.specs.Witnesses.{a_node, InMethod};

use crate::found::standing;
use crate::judging::Refused;
use crate::lines::{round_lines, title_of};
use class_table::Image;
use commands::{CodeMove, Command, Condition, MethodName, MethodPart, NewMethod};
use image_queries::write_line;
use part_lookup::users_part;
use rb_base::{Memory, Steps, Text};
use st_spans::span_of;
use st_tree::Path;
use std::alloc::Global;
use std::sync::ledger::Ledger;
use use_witnesses::{is_brought_high, reflections_brought};
use witness_lists::Witness;
use witness_numbers::witnesses_by_numbers;
use witness_texts::witness_lines;

/// The line of a whole method with this title.
fn method_line(alloc: Global, title: &[u8]) -> Result<Text, Memory>
    ensures { IfOk result (λ line. line ≡ line_of (codes "method " ++ title.now)) }
{
    let mut line = Text::from_slice(alloc, b"method ")?;
    line.push_slice(title)?;
    line.push_slice(b"\n")?;
    Ok(line)
}

/// The line of a node of a method of the user, with this title and this source. Want of memory also if it stands nowhere there.
fn node_inside(alloc: Global, title: &[u8], source: &[u8], path: &Path) -> Result<Text, Memory>
    ensures { IfOk result (λ line. (i : ImageOf (List ℕ)) (m : EntryOf (List ℕ)) → IsTitled m title.now source.now → IsLine i (a_node (InMethod m) path.now) line) }
{
    let Ok(Some(span)) = span_of(alloc, source, path) else {
        return Err(Memory);
    };
    let mut line = Text::new(alloc);
    write_line(alloc, title, span, &mut line)?;
    Ok(line)
}

/// The line of what is in the way in such a method. Want of memory also for a witness that stands in no method.
fn line_inside(
    alloc: Global,
    title: &[u8],
    source: &[u8],
    witness: &Witness,
) -> Result<Text, Memory>
    ensures { IfOk result (λ line. (s : Slots) (i : ImageOf (List ℕ)) (m : EntryOf (List ℕ)) → IsTitled m title.now source.now →
        IsLine i (as_in m (map_witness (name_at s.names) (witness_of s witness.now))) line) }
{
    match witness {
        Witness::Node { path, .. } => node_inside(alloc, title, source, path),
        Witness::Whole(_) => method_line(alloc, title),
        _ => Err(Memory),
    }
}

/// The lines of what is in the way in such a method, one for each witness.
fn lines_inside(
    alloc: Global,
    title: &[u8],
    source: &[u8],
    witnesses: &[Witness],
) -> Result<Vec<Text>, Memory>
    ensures { IfOk result (λ lines. (s : Slots) (i : ImageOf (List ℕ)) (m : EntryOf (List ℕ)) → IsTitled m title.now source.now →
        AreLines i (map (λ w. as_in m (map_witness (name_at s.names) (witness_of s w))) witnesses.now) lines.items) }
{
    let mut lines = Vec::new(alloc);
    for witness in witnesses {
        let line = line_inside(alloc, title, source, witness)?;
        lines.push(line)?;
    }
    Ok(lines)
}

/// The lines of what looks at the program itself in a method that a command adds.
fn added_lines(alloc: Global, image: &Image, new: &NewMethod) -> Result<Vec<Text>, Memory>
    ensures { IfOk result (λ lines. (i : ImageOf (List ℕ)) →
        AreLines i (map (map_witness (name_at image.now.names)) (reflections_in (asked_by image.now.names).command_words (new_method new.now.class new.now.meta new.now.protocol new.now.source (method_of new.now.tree)))) lines.items) }
{
    let mut found = Vec::new(alloc);
    reflections_brought(alloc, image, new, &mut found)?;
    let name = MethodName {
        class: new.class,
        meta: new.meta,
        selector: new.tree.selector,
    };
    let title = title_of(alloc, image, name)?;
    lines_inside(
        alloc,
        title.as_slice(),
        new.source.as_slice(),
        found.as_slice(),
    )
}

/// The lines of what looks at the program itself in what a command adds.
fn lines_added(alloc: Global, image: &Image, command: &Command) -> Result<Vec<Text>, Memory>
    ensures { IfOk result (λ lines. (i : ImageOf (List ℕ)) →
        AreLines i (map (map_witness (name_at image.now.names)) (brought_reflections image.now (command_of command.now))) lines.items) }
{
    match command {
        Command::AddMethod(new) => added_lines(alloc, image, new),
        _ => Ok(Vec::new(alloc)),
    }
}

/// The lines of a condition of which something stands in what a command brings, after what stands in the image.
fn lines_after(
    alloc: Global,
    image: &Image,
    command: &Command,
    condition: &Condition,
) -> Result<Vec<Text>, Memory>
    ensures { IfOk result (λ lines. (i : ImageOf (List ℕ)) →
        AreLines i (map (map_witness (name_at image.now.names)) (brought_after image.now (command_of command.now) (condition_of condition.now))) lines.items) }
{
    match *condition {
        Condition::NoReflection => lines_added(alloc, image, command),
        _ => Ok(Vec::new(alloc)),
    }
}

/// The line of the method that a part becomes, if it is too high.
fn lines_high<L: Ledger>(
    alloc: Global,
    image: &Image,
    command: &Command,
    steps: &mut Steps<L>,
) -> Result<Vec<Text>, Memory>
    requires { IsOrderly image.now }
    ensures { IfOk result (λ lines. (i : ImageOf (List ℕ)) →
        AreLines i (map (map_witness (name_at image.now.names)) (brought_heights (asked_by image.now.names) (number_image image.now) (command_of command.now))) lines.items) }
{
    let mut lines = Vec::new(alloc);
    if !is_brought_high(alloc, image, command, steps)? {
        return Ok(lines);
    }
    // No other command makes a method of code.
    let Command::MoveCode(change) = command else {
        return Err(Memory);
    };
    let CodeMove::ExtractMethod { part, to } = change else {
        return Err(Memory);
    };
    let name = MethodName {
        class: part.method.class,
        meta: part.method.meta,
        selector: *to,
    };
    let title = title_of(alloc, image, name)?;
    let line = method_line(alloc, title.as_slice())?;
    lines.push(line)?;
    Ok(lines)
}

/// The lines of a condition of which something stands in what a command brings, before what stands in the image.
fn lines_before<L: Ledger>(
    alloc: Global,
    image: &Image,
    command: &Command,
    condition: &Condition,
    steps: &mut Steps<L>,
) -> Result<Vec<Text>, Memory>
    requires { IsOrderly image.now }
    ensures { IfOk result (λ lines. (i : ImageOf (List ℕ)) →
        AreLines i (map (map_witness (name_at image.now.names)) (brought_before image.now (command_of command.now) (condition_of condition.now))) lines.items) }
{
    match *condition {
        Condition::Shallow => lines_high(alloc, image, command, steps),
        _ => Ok(Vec::new(alloc)),
    }
}

/// One list of lines after the other.
fn joined(mut lines: Vec<Text>, mut more: Vec<Text>) -> Result<Vec<Text>, Memory>
    ensures { IfOk result (λ all. all.items ≡ lines.items ++ more.items) }
{
    lines.append(&mut more)?;
    Ok(lines)
}

/// The lines of what is in the way of a condition of a command: what the command brings of it, and what stands in the image.
fn all_lines<L: Ledger>(
    alloc: Global,
    image: &Image,
    command: &Command,
    condition: &Condition,
    steps: &mut Steps<L>,
) -> Result<Vec<Text>, Memory>
    requires orderly { IsOrderly image.now }
    requires moving { IsMoving image.now (command_of command.now) (condition_of condition.now) }
    ensures { IfOk result (λ lines. AreLines (image_of image.now) (map (map_witness (name_at image.now.names))
        ((brought_before image.now (command_of command.now) (condition_of condition.now) ++ standing image.now (command_of command.now) (condition_of condition.now)) ++ brought_after image.now (command_of command.now) (condition_of condition.now))) lines.items) }
{
    let found = standing(alloc, image, command, condition, steps)?;
    let before = lines_before(alloc, image, command, condition, steps)?;
    let there = witness_lines(alloc, image, found.as_slice())?;
    let after = lines_after(alloc, image, command, condition)?;
    let first = joined(before, there)?;
    let all = joined(first, after)?;
    Ok(all)
}

/// The part that a condition asks for, if it asks for a part of which there is none.
fn missing_part<L: Ledger>(
    alloc: Global,
    image: &Image,
    condition: &Condition,
    steps: &mut Steps<L>,
) -> Result<Option<MethodPart>, Memory>
    requires { IsOrderly image.now }
    ensures { IfOk result (IsMissing image.now condition.now) }
{
    match *condition {
        Condition::PartIs(part) => match users_part(alloc, image, &part, steps)? {
            None => Ok(Some(part)),
            Some(_) => Ok(None),
        },
        _ => Ok(None),
    }
}

/// The lines of what is in the way of a single command that is refused; if no part stands at the places that it names, those
/// of the nodes round them.
pub(crate) fn command_lines<L: Ledger>(
    alloc: Global,
    image: &Image,
    refused: &Refused,
    steps: &mut Steps<L>,
) -> Result<Vec<Text>, Memory>
    requires orderly { IsOrderly image.now }
    requires self_known { HasSelf image.now.names }
    requires known { IsKnownRefused image.now refused.now }
    requires moving { IsMoving image.now (command_of refused.now.command) (condition_of refused.now.condition) }
    ensures { IfOk result (λ lines. AreLinesOf (judging_of image.now refused.now) (reason_text image.now refused.now.condition) lines.items) }
{
    witnesses_by_numbers();
    match missing_part(alloc, image, &refused.condition, steps)? {
        Some(part) => round_lines(alloc, image, &part, steps),
        None => all_lines(alloc, image, &refused.command, &refused.condition, steps),
    }
}
