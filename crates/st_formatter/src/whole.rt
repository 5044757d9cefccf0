// Methods and do-its.
ghost use Rattle.std.specs.Prelude.{◌≡◌, ◌<◌, ◌++◌, length, drop, map, OnOk, OnErr, codes};
ghost use Rattle.std.specs.List.{AllByRecursion};
ghost use Rattle.rb_base.specs.Names.{name_at};
ghost use Rattle.tree_model.specs.Tree.{map_sequence, map_method};
ghost use Rattle.tree_model.specs.AllNames.{SequenceNames, MethodNames};
ghost use Rattle.st_tree.specs.View.{sequence_of, method_of};
ghost use Rattle.text_model.specs.Pieces.{pieces_behind};
ghost use Rattle.st_formatter.specs.Turns.{items_at};
ghost use Rattle.text_model.specs.Whole.{pattern_text, primitive_lines, canonical_method, canonical_doit};

use crate::backward::Backward;
use crate::gaps::written;
use crate::lines::{start_line, write_notes};
use crate::messages::write_keyword;
use crate::selectors::{count_keywords, write_name};
use crate::trees::{DEPTH, write_lines};
use precedences::text_of;
use rb_base::{Memory, NameId, Names, Text};
use st_tree::{Method, Sequence};
use std::alloc::Global;

/// The room in bytes that a text has to begin with. Most texts are shorter.
const TEXT_ROOM: usize = 512;

/// The room in bytes that a pattern has to begin with. Most patterns are shorter.
const PATTERN_ROOM: usize = 64;

/// Appends the canonical text of a method. The numbers of its names are those of `names`. On want of memory nothing is
/// appended.
pub fn format_method(
    alloc: Global,
    method: &Method,
    names: &Names,
    out: &mut Text,
) -> Result<(), Memory>
    requires { MethodNames (λ n. n < length names.now) (method_of method.now) }
    ensures ok { OnOk result (out.new ≡
        out.old ++ canonical_method (map_method (name_at names.now) (method_of method.now))) }
    ensures err { OnErr result (out.new ≡ out.old) }
{
    let mut text = Backward::with_room(alloc, TEXT_ROOM)?;
    write_lines(&method.body, 1, DEPTH, names, &mut text)?;
    write_primitive(method.primitive, &mut text)?;
    write_notes(method.head.as_slice(), 1, &mut text)?;
    write_pattern(
        method.selector,
        method.arguments.as_slice(),
        names,
        &mut text,
    )?;
    let bytes = written(&mut text)?;
    out.push_slice(bytes.as_slice())
}

/// Appends the canonical text of a do-it. The numbers of its names are those of `names`. On want of memory nothing is
/// appended.
pub fn format_doit(
    alloc: Global,
    body: &Sequence,
    names: &Names,
    out: &mut Text,
) -> Result<(), Memory>
    requires { SequenceNames (λ n. n < length names.now) (sequence_of body.now) }
    ensures ok { OnOk result (out.new ≡
        out.old ++ canonical_doit (map_sequence (name_at names.now) (sequence_of body.now))) }
    ensures err { OnErr result (out.new ≡ out.old) }
{
    let mut text = Backward::with_room(alloc, TEXT_ROOM)?;
    write_lines(body, 0, DEPTH, names, &mut text)?;
    let bytes = written(&mut text)?;
    out.push_slice(without_first(bytes.as_slice()))
}

/// All bytes but the first.
fn without_first(bytes: &[u8]) -> &[u8]
    ensures { result.now ≡ drop 1 bytes.now }
{
    match bytes.split_first() {
        None => bytes,
        Some((_, rest)) => rest,
    }
}

/// Writes the line of a primitive before the text, or nothing where there is none.
fn write_primitive(primitive: Option<u16>, out: &mut Backward<'_, '_>) -> Result<(), Memory>
    ensures { OnOk result (out.new ≡ pieces_behind (codes "\n") (primitive_lines primitive) ++ out.old) }
{
    match primitive {
        None => Ok(()),
        Some(number) => {
            let digits = format!(in out.alloc(); "{number}")?;
            out.put_byte(b'>')?;
            out.put(digits.as_bytes())?;
            out.put(b"<primitive: ")?;
            start_line(1, out)
        }
    }
}

/// Writes the pattern of a method before the text.
fn write_pattern(
    selector: NameId,
    arguments: &[NameId],
    names: &Names,
    out: &mut Backward<'_, '_>,
) -> Result<(), Memory>
    requires selector { selector < length names.now }
    requires arguments { AllByRecursion (λ n. n < length names.now) arguments.now }
    ensures { OnOk result (out.new ≡
        pattern_text (name_at names.now selector) (map (name_at names.now) arguments.now) ++ out.old) }
{
    let text = text_of(names, selector);
    let count = count_keywords(text);
    let mut words = text;
    let mut pattern = Backward::with_room(out.alloc(), PATTERN_ROOM)?;
    let mut at = count.max(arguments.len());
    while at > 0 {
        at -= 1;
        write_argument_name(arguments, at, names, &mut pattern)?;
        words = write_keyword(words, at, count, &mut pattern)?;
    }
    let bytes = written(&mut pattern)?;
    out.put(without_first(bytes.as_slice()))
}

/// Writes the argument of this number behind a blank before the text, or nothing where there is none.
#[tactic(auto, using(crate::proofs::Turned::item_rules))]
fn write_argument_name(
    arguments: &[NameId],
    at: usize,
    names: &Names,
    out: &mut Backward<'_, '_>,
) -> Result<(), Memory>
    requires { AllByRecursion (λ n. n < length names.now) arguments.now }
    ensures { OnOk result (out.new ≡
        pieces_behind (codes " ") (map (name_at names.now) (items_at arguments.now at)) ++ out.old) }
{
    if at >= arguments.len() {
        return Ok(());
    }
    write_name(arguments[at], names, out)?;
    out.put_byte(b' ')?;
    Ok(())
}
