// `search IMAGE PATTERN`: the lines of the nodes that the pattern matches, or the first chunk or the pattern that is refused.
ghost use Rattle.std.specs.Prelude.{◌≡◌, ◌<◌, [], length, IfOk, IfErr};
ghost use Rattle.rb_base.specs.Names.{name_at};
ghost use Rattle.class_table.specs.View.{image_of};
ghost use Rattle.class_table.specs.Valid.{IsOrderly};
ghost use Rattle.event_trees.specs.Naming.{Grows};
ghost use Rattle.image_queries.specs.Spelled.{AreSpelled};
ghost use Rattle.pattern_model.specs.Named.{map_pattern};
ghost use Rattle.patterns.specs.Names.{PatternNames};
ghost use Rattle.rewrite_model.specs.Saying.{SaysPattern};
ghost use Rattle.pattern_faults.specs.Told as told;
ghost use Rattle.command_words.specs.Forms.{Search};
ghost use Rattle.image_forms.specs.Loads.{world};
ghost use Rattle.image_forms.specs.Answers.{AnswersForm, OfImage, SearchesIn};

use crate::image_lines::{push_image_refusal, push_text_refusal};
use crate::loading::{IMAGE_LIMIT, load};
use crate::status::Status;
use class_table::Image;
use file_faults::ImageFault;
use file_reading::read_image;
use image_search::write_matches;
use pattern_faults::{PatternFault, read_pattern};
use patterns::Pattern;
use rb_base::{Memory, Shelf, Text};
use std::alloc::Global;

/// Reads a pattern with the names of an image, to which those that are new are added.
fn parse_in(alloc: Global, text: &[u8], image: &mut Image) -> Result<Pattern, PatternFault>
    ensures rest { image.new ≡ record image.old { names = image.new.names } }
    ensures grows { Grows image.old.names image.new.names }
    ensures said { IfOk result (λ p. SaysPattern text.now (map_pattern (name_at image.new.names) p)) }
    ensures known { IfOk result (λ p. PatternNames (λ n. n < length image.new.names) p) }
    ensures fault { IfErr result (told.IsRefused text.now) }
{
    read_pattern(alloc, text, image.names_mut())
}

/// Reads a pattern. Names that are new are added to those of the image, which for the rest is as it was.
fn pattern_in(alloc: Global, text: &[u8], image: &mut Image) -> Result<Pattern, PatternFault>
    requires { IsOrderly image.old }
    ensures image { image_of image.new ≡ image_of image.old }
    ensures orderly { IsOrderly image.new }
    ensures said { IfOk result (λ p. SaysPattern text.now (map_pattern (name_at image.new.names) p)) }
    ensures known { IfOk result (λ p. PatternNames (λ n. n < length image.new.names) p) }
    ensures fault { IfErr result (told.IsRefused text.now) }
{
    let pattern = parse_in(alloc, text, image);
    let _count = image.names().len();
    pattern
}

/// The answer to a pattern in an image.
fn search_image(
    alloc: Global,
    image: &mut Image,
    pattern: &[u8],
    out: &mut Text,
) -> Result<Status, Memory>
    requires orderly { IsOrderly image.old }
    requires spelled { AreSpelled (image_of image.old) }
    requires empty { out.old ≡ [] }
    ensures { IfOk result (λ status. SearchesIn (image_of image.old) pattern.now status out.new) }
{
    match pattern_in(alloc, pattern, image) {
        Ok(pattern) => {
            write_matches(alloc, image, &pattern, out)?;
            Ok(Status::Done)
        }
        Err(fault) => {
            push_text_refusal(alloc, "pattern", fault, out)?;
            Ok(Status::ScriptText)
        }
    }
}

/// The answer to the text.
fn search_text(alloc: Global, text: &[u8], pattern: &[u8], out: &mut Text) -> Result<Status, Memory>
    requires { out.old ≡ [] }
    ensures { IfOk result (λ status. OfImage text.now status out.new (λ i. SearchesIn i pattern.now status out.new)) }
{
    match read_image(alloc, text) {
        Ok(image) => {
            let mut image = image;
            search_image(alloc, &mut image, pattern, out)
        }
        Err(ImageFault::Refused { chunk, at, cause }) => {
            push_image_refusal(alloc, chunk, at, cause, out)?;
            Ok(Status::ImageText)
        }
        Err(ImageFault::Memory) => Err(Memory),
    }
}

/// The answer to the file.
pub fn search<F: Shelf>(
    alloc: Global,
    shelf: &mut F,
    image: &str,
    pattern: &str,
    out: &mut Text,
) -> Result<Status, Memory>
    requires { out.old ≡ [] }
    ensures answered { IfOk result (λ status. AnswersForm (world F.told F.faults F.taken shelf.old shelf.new) (Search image.now pattern.now) status out.new) }
    ensures same { F.told shelf.new ≡ F.told shelf.old }
{
    match load(alloc, shelf, image, IMAGE_LIMIT, out)? {
        Ok(bytes) => search_text(alloc, bytes.as_slice(), pattern.as_bytes(), out),
        Err(status) => Ok(status),
    }
}
