// `rewrite IMAGE PATTERN REPLACEMENT`: the image in which what the pattern matches is replaced, or the first chunk, the pattern
// or the replacement that is refused.
ghost use Rattle.std.specs.Prelude.{◌≡◌, ◌<◌, [], length, IfOk, IfErr};
ghost use Rattle.rb_base.specs.Names.{name_at};
ghost use Rattle.class_table.specs.View.{image_of};
ghost use Rattle.class_table.specs.Valid.{IsOrderly};
ghost use Rattle.event_trees.specs.Naming.{Grows};
ghost use Rattle.pattern_model.specs.Named.{map_pattern};
ghost use Rattle.patterns.specs.Names.{PatternNames};
ghost use Rattle.rewrite_model.specs.Saying.{SaysRule};
ghost use Rattle.pattern_faults.specs.Told as told;
ghost use Rattle.command_words.specs.Forms.{Rewrite};
ghost use Rattle.image_forms.specs.Loads.{world};
ghost use Rattle.image_forms.specs.Answers.{AnswersForm, OfImage, RewritesIn};

use crate::image_lines::{push_image_refusal, push_text_refusal};
use crate::loading::{IMAGE_LIMIT, load};
use crate::status::Status;
use class_table::Image;
use file_faults::ImageFault;
use file_reading::read_image;
use image_file::write_image;
use image_rewriting::rewrite_image;
use pattern_faults::{RuleFault, read_rule};
use patterns::Rule;
use rb_base::{Memory, Shelf, Text};
use std::alloc::Global;
use std::mem::forget;

/// Reads a rule with the names of an image, to which those that are new are added.
fn parse_in(
    alloc: Global,
    pattern: &[u8],
    replacement: &[u8],
    image: &mut Image,
) -> Result<Rule, RuleFault>
    ensures rest { image.new ≡ record image.old { names = image.new.names } }
    ensures grows { Grows image.old.names image.new.names }
    ensures said { IfOk result (λ r. SaysRule pattern.now replacement.now (record { pattern = map_pattern (name_at image.new.names) r.pattern; replacement = map_pattern (name_at image.new.names) r.replacement })) }
    ensures known_pattern { IfOk result (λ r. PatternNames (λ n. n < length image.new.names) r.pattern) }
    ensures known_replacement { IfOk result (λ r. PatternNames (λ n. n < length image.new.names) r.replacement) }
    ensures fault { IfErr result (told.IsRefusedRule pattern.now replacement.now) }
{
    read_rule(alloc, pattern, replacement, image.names_mut())
}

/// Reads a rule. Names that are new are added to those of the image, which for the rest is as it was.
fn rule_in(
    alloc: Global,
    pattern: &[u8],
    replacement: &[u8],
    image: &mut Image,
) -> Result<Rule, RuleFault>
    requires { IsOrderly image.old }
    ensures image { image_of image.new ≡ image_of image.old }
    ensures orderly { IsOrderly image.new }
    ensures said { IfOk result (λ r. SaysRule pattern.now replacement.now (record { pattern = map_pattern (name_at image.new.names) r.pattern; replacement = map_pattern (name_at image.new.names) r.replacement })) }
    ensures known_pattern { IfOk result (λ r. PatternNames (λ n. n < length image.new.names) r.pattern) }
    ensures known_replacement { IfOk result (λ r. PatternNames (λ n. n < length image.new.names) r.replacement) }
    ensures fault { IfErr result (told.IsRefusedRule pattern.now replacement.now) }
{
    let rule = parse_in(alloc, pattern, replacement, image);
    let _count = image.names().len();
    rule
}

/// The answer to a rule in an image.
fn rewrite_in(
    alloc: Global,
    image: &mut Image,
    pattern: &[u8],
    replacement: &[u8],
    out: &mut Text,
) -> Result<Status, Memory>
    requires orderly { IsOrderly image.old }
    requires empty { out.old ≡ [] }
    ensures { IfOk result (λ status. RewritesIn (image_of image.old) pattern.now replacement.now status out.new) }
{
    match rule_in(alloc, pattern, replacement, image) {
        Ok(rule) => {
            rewrite_image(alloc, image, &rule)?;
            write_image(alloc, image, out)?;
            Ok(Status::Done)
        }
        Err(RuleFault::Pattern(fault)) => {
            push_text_refusal(alloc, "pattern", fault, out)?;
            Ok(Status::ScriptText)
        }
        Err(RuleFault::Replacement(fault)) => {
            push_text_refusal(alloc, "replacement", fault, out)?;
            Ok(Status::ScriptText)
        }
    }
}

/// The answer to the text.
fn rewrite_text(
    alloc: Global,
    text: &[u8],
    pattern: &[u8],
    replacement: &[u8],
    out: &mut Text,
) -> Result<Status, Memory>
    requires { out.old ≡ [] }
    ensures { IfOk result (λ status. OfImage text.now status out.new (λ i. RewritesIn i pattern.now replacement.now status out.new)) }
{
    match read_image(alloc, text) {
        Ok(image) => {
            let mut image = image;
            let status = rewrite_in(alloc, &mut image, pattern, replacement, out)?;
            // The program ends behind this answer, so the image is not taken apart piece by piece.
            forget(image);
            Ok(status)
        }
        Err(ImageFault::Refused { chunk, at, cause }) => {
            push_image_refusal(alloc, chunk, at, cause, out)?;
            Ok(Status::ImageText)
        }
        Err(ImageFault::Memory) => Err(Memory),
    }
}

/// The answer to the file.
pub fn rewrite<F: Shelf>(
    alloc: Global,
    shelf: &mut F,
    image: &str,
    pattern: &str,
    replacement: &str,
    out: &mut Text,
) -> Result<Status, Memory>
    requires { out.old ≡ [] }
    ensures answered { IfOk result (λ status. AnswersForm (world F.told F.faults F.taken shelf.old shelf.new) (Rewrite image.now pattern.now replacement.now) status out.new) }
    ensures same { F.told shelf.new ≡ F.told shelf.old }
{
    match load(alloc, shelf, image, IMAGE_LIMIT, out)? {
        Ok(bytes) => rewrite_text(
            alloc,
            bytes.as_slice(),
            pattern.as_bytes(),
            replacement.as_bytes(),
            out,
        ),
        Err(status) => Ok(status),
    }
}
