// Do-its that get another source.
ghost use Rattle.std.specs.Prelude.{◌≡◌, ◌≤◌, ◌==◌, ◌||◌, ◌-◌, not, nat_le, length, slice_set, false, IfSome, IfNone, Some, None, Ok};
ghost use Rattle.std.specs.Option.{option_map_or};
ghost use Rattle.rb_base.specs.Names.{name_at};
ghost use Rattle.token_model.specs.declared.kind.Dialect.TheVariants.{Second};
ghost use Rattle.tree_model.specs.Tree.{map_sequence};
ghost use Rattle.tree_model.specs.AllNames.{SequenceNames};
ghost use Rattle.st_tree.specs.View.{sequence_of};
ghost use Rattle.chunk_format.specs.Blank.{blank_len};
ghost use Rattle.file_model.specs.Causes.{UnknownDefinition, first_cause};
ghost use Rattle.file_model.specs.Forms as forms;
ghost use Rattle.file_model.specs.Numerals as numerals;
ghost use Rattle.file_model.specs.Places.{opened_at};
ghost use Rattle.file_model.specs.Filing.{ReplacementChunk, replacement_refusals, goes_on, taken};
ghost use Rattle.chunk_forms.specs.Told.{replacement_text};
ghost use Rattle.placed_draft.specs.Placed.{image_of};
ghost use Rattle.file_reading.specs.Filed.{image_so_far, places_so_far, filed, IsSoundSoFar, IsNumberIn, text_doit};
ghost use Rattle.file_reading.specs.Answers.{Answers, Replaces};

use crate::doits::doit_of;
use crate::faults::stop_of;
use crate::reading::{Progress, Stop};
use chunk_forms::{ChunkForm, Replacement, chunk_form, place_in};
use file_faults::ImageCause;
use rb_base::Names;
use st_parser::parse_doit;
use st_tree::Sequence;
use std::alloc::Global;

/// The number of a do-it that a numeral states, counted from 1, where there are as many do-its.
fn doit_number(numeral: &[u8], count: usize) -> Option<usize>
    ensures positive { IfSome result (λ k. 1 ≤ k) }
    ensures there { IfSome result (λ k. k ≤ count) }
    ensures stated { IfSome result (λ k. numerals.place_in numeral.now ≡ Some k) }
    ensures none { IfNone result (option_map_or (λ k. nat_le k count) (numerals.place_in numeral.now) false ≡ false) }
{
    let number = place_in(numeral)?;
    if number <= count { Some(number) } else { None }
}

/// Whether a source is empty or begins with a blank, as no source of a chunk does.
fn is_no_source(source: &[u8]) -> bool
    ensures { result ≡ (length source.now == 0 || not (blank_len source.now == 0)) }
{
    match source.first() {
        None => true,
        Some(byte) => byte.is_ascii_whitespace(),
    }
}

/// Whether a chunk that spells this tree is a do-it.
fn is_doit(kernel: bool, body: &Sequence, names: &Names) -> bool
    ensures { result ≡ forms.is_doit (forms.form_of Second kernel (map_sequence (name_at names.now) (sequence_of body.now))) }
{
    matches!(chunk_form(body, kernel, names), ChunkForm::Evaluates)
}

/// The number of the do-it that is replaced, counted from 1, unless the replacement is refused.
fn replaced_number(
    kernel: bool,
    replacement: &Replacement<'_>,
    body: &Sequence,
    reading: &Progress,
) -> Option<usize>
    ensures positive { IfSome result (λ k. 1 ≤ k) }
    ensures there { IfSome result (λ k. k ≤ length (image_of reading.now.draft.value).doits) }
    ensures stated { IfSome result (λ k. numerals.place_in replacement.now.numeral.now ≡ Some k) }
    ensures accepted { IfSome result (λ k. first_cause (replacement_refusals Second kernel (image_so_far reading.now) (replacement_text replacement.now) (map_sequence (name_at reading.now.names) (sequence_of body.now))) ≡ None) }
    ensures refused { IfNone result (first_cause (replacement_refusals Second kernel (image_so_far reading.now) (replacement_text replacement.now) (map_sequence (name_at reading.now.names) (sequence_of body.now))) ≡ Some UnknownDefinition) }
{
    let number = doit_number(replacement.numeral, reading.draft.doit_count())?;
    if is_no_source(replacement.source) || !is_doit(kernel, body, &reading.names) {
        return None;
    }
    Some(number)
}

/// Puts a do-it of this source and this tree in the place of the one that has a number, counted from 1.
fn replace_at(
    alloc: Global,
    number: usize,
    source: &[u8],
    body: Sequence,
    mut reading: Progress,
) -> Result<Progress, Stop>
    requires sound { IsSoundSoFar reading }
    requires known { SequenceNames (IsNumberIn reading.names) (sequence_of body) }
    requires first { 1 ≤ number }
    requires within { number ≤ length (image_of reading.draft.value).doits }
    ensures { Answers (λ r. r ≡ Ok (goes_on (opened_at None (places_so_far reading)) None (record (image_so_far reading) { doits = slice_set (image_so_far reading).doits (number - 1) (text_doit reading.names source.now body) }))) result }
{
    let doit = doit_of(alloc, source, body)?;
    reading.draft.replace_doit(number, doit);
    Ok(reading)
}

/// Replaces a do-it by one that spells this tree.
fn put_replacement(
    alloc: Global,
    kernel: bool,
    replacement: &Replacement<'_>,
    body: Sequence,
    reading: Progress,
) -> Result<Progress, Stop>
    requires sound { IsSoundSoFar reading }
    requires known { SequenceNames (IsNumberIn reading.names) (sequence_of body) }
    ensures { Answers (λ r. r ≡ taken Second kernel (filed reading) (ReplacementChunk (replacement_text replacement.now) (map_sequence (name_at reading.names) (sequence_of body)))) result }
{
    match replaced_number(kernel, replacement, &body, &reading) {
        None => Err(Stop::Refused(ImageCause::UnknownDefinition)),
        Some(number) => replace_at(alloc, number, replacement.source, body, reading),
    }
}

/// Replaces a do-it by one of another source, in which the place of a fault is told.
pub(crate) fn replace(
    alloc: Global,
    kernel: bool,
    replacement: &Replacement<'_>,
    mut reading: Progress,
) -> Result<Progress, Stop>
    requires { IsSoundSoFar reading }
    ensures { Answers (Replaces kernel (filed reading) (replacement_text replacement.now)) result }
{
    match parse_doit(alloc, replacement.source, &mut reading.names) {
        Ok(body) => put_replacement(alloc, kernel, replacement, body, reading),
        Err(fault) => Err(stop_of(fault)),
    }
}
