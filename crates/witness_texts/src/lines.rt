// The lines of witnesses.
ghost use Rattle.std.specs.Prelude.{◌≡◌, ◌++◌, codes, map, IfOk, OnOk};
ghost use Rattle.std.specs.Fmt.{decimal};
ghost use Rattle.rb_base.specs.Names.{name_at};
ghost use Rattle.image_model.specs.Means.{map_meaning};
ghost use Rattle.command_model.specs.Parts.{Expression, Run};
ghost use Rattle.class_table.specs.Valid.{IsOrderly};
ghost use Rattle.class_table.specs.View.{image_of};
ghost use Rattle.name_meanings.specs.Meanings.{meaning_of};
ghost use Rattle.refusal_witnesses.specs.Witnesses.{a_node, APart, AWhole, TwoMeanings};
ghost use Rattle.refusal_witnesses.specs.Lines.{AreLines, IsLine, line_of};
ghost use Rattle.witness_lists.specs.Views.{owner_of, shown, witness_of};
ghost use Rattle.witness_numbers.specs.MappedWitnesses.{map_owner, map_witness};
ghost use Rattle.witness_texts.specs.Code.{IsCodeOf, IsStart, whole_title};

use crate::code::{Code, check_statements, code_of, is_users, span_in, title};
use crate::meanings::push_meanings;
use class_table::Image;
use image_queries::text_of;
use name_meanings::Meaning;
use rb_base::{Memory, NameId, Span, Text};
use st_tree::Path;
use std::alloc::Global;
use witness_lists::{Owner, Witness};

/// The title of a whole method or do-it.
fn whole_title(alloc: Global, image: &Image, owner: &Owner, code: &Code<'_>) -> Result<Text, Memory>
    requires orderly { IsOrderly image.now }
    requires code { IsCodeOf image.now owner.now code.now }
    ensures { IfOk result (λ text. text ≡ whole_title image.now.names image.now.classes code.now) }
{
    let name = title(alloc, image, owner, code)?;
    match code {
        Code::DoIt { .. } => Ok(name),
        Code::Method(_) => {
            let mut text = Text::from_slice(alloc, b"method ")?;
            text.push_slice(name.as_slice())?;
            Ok(text)
        }
    }
}

/// Appends a number in decimal.
fn push_number(alloc: Global, number: usize, out: &mut Text) -> Result<(), Memory>
    ensures { OnOk result (out.new ≡ out.old ++ decimal number) }
{
    let digits = format!(in alloc; "{number}")?;
    out.push_slice(digits.as_bytes())
}

/// Appends the offsets of a span.
fn push_span(alloc: Global, span: Span, out: &mut Text) -> Result<(), Memory>
    ensures { OnOk result (out.new ≡ out.old ++ codes " " ++ decimal span.from ++ codes " " ++ decimal span.to) }
{
    out.push_slice(b" ")?;
    push_number(alloc, span.from, out)?;
    out.push_slice(b" ")?;
    push_number(alloc, span.to, out)
}

/// What the line of a node begins with: of the user's its title and its offsets, and of the kernel's its method alone.
fn line_start(
    alloc: Global,
    image: &Image,
    owner: &Owner,
    code: &Code<'_>,
    path: &Path,
) -> Result<Text, Memory>
    requires orderly { IsOrderly image.now }
    requires code { IsCodeOf image.now owner.now code.now }
    ensures { IfOk result (IsStart image.now.names image.now.classes code.now (Expression path.now)) }
{
    if !is_users(code) {
        return whole_title(alloc, image, owner, code);
    }
    let span = span_in(alloc, code, path)?;
    let mut start = title(alloc, image, owner, code)?;
    push_span(alloc, span, &mut start)?;
    Ok(start)
}

/// The line of a whole method or do-it.
fn whole_line(alloc: Global, image: &Image, owner: &Owner) -> Result<Text, Memory>
    requires { IsOrderly image.now }
    ensures { IfOk result (IsLine (image_of image.now) (AWhole (map_owner (name_at image.now.names) (owner_of image.now owner.now)))) }
{
    let Some(code) = code_of(image, owner) else {
        return Err(Memory);
    };
    let mut line = whole_title(alloc, image, owner, &code)?;
    line.push_slice(b"\n")?;
    Ok(line)
}

/// The line of a node.
fn node_line(alloc: Global, image: &Image, owner: &Owner, path: &Path) -> Result<Text, Memory>
    requires { IsOrderly image.now }
    ensures { IfOk result (IsLine (image_of image.now) (a_node (map_owner (name_at image.now.names) (owner_of image.now owner.now)) path.now)) }
{
    let Some(code) = code_of(image, owner) else {
        return Err(Memory);
    };
    let mut line = line_start(alloc, image, owner, &code, path)?;
    line.push_slice(b"\n")?;
    Ok(line)
}

/// The line of neighbouring statements that stand at the span. Want of memory also if they do not.
fn statements_line(
    alloc: Global,
    image: &Image,
    owner: &Owner,
    path: &Path,
    first: usize,
    count: usize,
    span: Span,
) -> Result<Text, Memory>
    requires { IsOrderly image.now }
    ensures { IfOk result (IsLine (image_of image.now) (APart (map_owner (name_at image.now.names) (owner_of image.now owner.now)) (Run path.now first count))) }
{
    let Some(code) = code_of(image, owner) else {
        return Err(Memory);
    };
    check_statements(alloc, &code, path, first, count, span)?;
    let mut line = title(alloc, image, owner, &code)?;
    push_span(alloc, span, &mut line)?;
    line.push_slice(b"\n")?;
    Ok(line)
}

/// The line of a name at a node, with its two meanings.
fn meanings_line(
    alloc: Global,
    image: &Image,
    owner: &Owner,
    path: &Path,
    name: NameId,
    one: Meaning,
    other: Meaning,
) -> Result<Text, Memory>
    requires { IsOrderly image.now }
    ensures { IfOk result (IsLine (image_of image.now) (TwoMeanings (map_owner (name_at image.now.names) (owner_of image.now owner.now)) path.now (name_at image.now.names name) (map_meaning (name_at image.now.names) (meaning_of one)) (map_meaning (name_at image.now.names) (meaning_of other)))) }
{
    let Some(code) = code_of(image, owner) else {
        return Err(Memory);
    };
    let mut line = line_start(alloc, image, owner, &code, path)?;
    line.push_slice(b" ")?;
    push_meanings(image, name, one, other, &mut line)?;
    line.push_slice(b"\n")?;
    Ok(line)
}

/// The line of a name after a word.
fn name_line(alloc: Global, word: &[u8], name: &[u8]) -> Result<Text, Memory>
    ensures { IfOk result (λ line. line ≡ line_of (word.now ++ name.now)) }
{
    let mut line = Text::from_slice(alloc, word)?;
    line.push_slice(name)?;
    line.push_slice(b"\n")?;
    Ok(line)
}

/// The line of a step.
fn step_line(alloc: Global, step: usize) -> Result<Text, Memory>
    ensures { IfOk result (λ line. line ≡ line_of (codes "step " ++ decimal step)) }
{
    let mut line = Text::from_slice(alloc, b"step ")?;
    push_number(alloc, step, &mut line)?;
    line.push_slice(b"\n")?;
    Ok(line)
}

/// The line of a witness. Want of memory also if the witness is none of the image.
fn witness_line(alloc: Global, image: &Image, witness: &Witness) -> Result<Text, Memory>
    requires { IsOrderly image.now }
    ensures { IfOk result (IsLine (image_of image.now) (map_witness (name_at image.now.names) (witness_of image.now witness.now))) }
{
    match witness {
        Witness::Node { owner, path } => node_line(alloc, image, owner, path),
        Witness::Statements {
            owner,
            path,
            first,
            count,
            span,
        } => statements_line(alloc, image, owner, path, *first, *count, *span),
        Witness::Whole(owner) => whole_line(alloc, image, owner),
        Witness::Class(name) => name_line(alloc, b"class ", text_of(image, *name)),
        Witness::Selector(name) => name_line(alloc, b"selector ", text_of(image, *name)),
        Witness::Step(step) => step_line(alloc, *step),
        Witness::Meanings {
            owner,
            path,
            name,
            one,
            other,
        } => meanings_line(alloc, image, owner, path, *name, *one, *other),
    }
}

/// The lines of witnesses, one for each, in their order. Want of memory also if one is none of the image.
pub fn witness_lines(
    alloc: Global,
    image: &Image,
    witnesses: &[Witness],
) -> Result<Vec<Text>, Memory>
    requires { IsOrderly image.now }
    ensures { IfOk result (λ lines. AreLines (image_of image.now) (map (map_witness (name_at image.now.names)) (shown image.now witnesses.now)) lines.items) }
{
    let mut lines = Vec::new(alloc);
    for witness in witnesses {
        let line = witness_line(alloc, image, witness)?;
        lines.push(line)?;
    }
    Ok(lines)
}
