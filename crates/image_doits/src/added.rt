// A do-it that is put behind those of an image.
ghost use Rattle.std.specs.Prelude.{◌≡◌, ◌<◌, length, IfOk, IfErr, OnOk, OnErr};
ghost use Rattle.token_model.specs.declared.kind.Dialect.TheVariants.{Second};
ghost use Rattle.tree_model.specs.Tree.{map_sequence};
ghost use Rattle.tree_model.specs.AllNames.{SequenceNames};
ghost use Rattle.grammar_model.specs.Whole as whole;
ghost use Rattle.grammar_model.specs.Spelling.{SpellsDoIt};
ghost use Rattle.rb_base.specs.Names.{name_at};
ghost use Rattle.st_tree.specs.View.{sequence_of};
ghost use Rattle.st_faults.specs.declared.fault.ParseFault.{ParseFault};
ghost use Rattle.st_faults.specs.Faults.{IsRefused};
ghost use Rattle.event_trees.specs.Naming.{Grows};
ghost use Rattle.image_model.specs.Image.{plus, map_doit};
ghost use Rattle.class_table.specs.View.{doit_of, image_of};
ghost use Rattle.class_table.specs.Valid.{IsOrderly};
ghost use Rattle.live_slots.specs.Live.{AllLive};
ghost use Rattle.image_doits.specs.Added.{IsWithDoIt};

use class_table::{DoIt, Image};
use rb_base::Text;
use st_parser::{ParseFault, parse_doit};
use st_tree::Sequence;
use std::alloc::Global;

/// The tree of a do-it. Its names are numbers of the image, to which those that are new are added.
fn parse_in(alloc: Global, text: &[u8], image: &mut Image) -> Result<Sequence, ParseFault>
    ensures rest { image.new ≡ record image.old { names = image.new.names } }
    ensures grows { Grows image.old.names image.new.names }
    ensures tree { IfOk result (λ body. SpellsDoIt Second text.now (map_sequence (name_at image.new.names) (sequence_of body))) }
    ensures known { IfOk result (λ body. SequenceNames (λ n. n < length image.new.names) (sequence_of body)) }
    ensures fault { IfErr result (IsRefused whole.DoIt text.now) }
{
    parse_doit(alloc, text, image.names_mut())
}

/// The tree of a do-it of Smalltalk-80 (Goldberg and Robson 1983), with brace arrays, over the names of the image, to which
/// those that are new are added; for the rest the image is as it was.
///
/// # Errors
///
/// The first fault of the text, at an offset in bytes from its start, or want of memory.
pub fn read_doit(alloc: Global, text: &[u8], image: &mut Image) -> Result<Sequence, ParseFault>
    requires { IsOrderly image.old }
    ensures image { image_of image.new ≡ image_of image.old }
    ensures grows { Grows image.old.names image.new.names }
    ensures orderly { IsOrderly image.new }
    ensures live { AllLive image.old → AllLive image.new }
    ensures tree { IfOk result (λ body. SpellsDoIt Second text.now (map_sequence (name_at image.new.names) (sequence_of body))) }
    ensures known { IfOk result (λ body. SequenceNames (λ n. n < length image.new.names) (sequence_of body)) }
    ensures fault { IfErr result (IsRefused whole.DoIt text.now) }
{
    let body = parse_in(alloc, text, image);
    let _ = image.names().len();
    body
}

/// Puts a do-it behind those that are there. The error is want of memory; the image is then as it was.
fn put(image: &mut Image, doit: DoIt) -> Result<(), ParseFault>
    requires orderly { IsOrderly image.old }
    requires known { SequenceNames (λ n. n < length image.old.names) (sequence_of doit.body) }
    ensures image { OnOk result (image_of image.new ≡ plus (image_of image.old) (map_doit (name_at image.old.names) (doit_of doit))) }
    ensures names { image.new.names ≡ image.old.names }
    ensures orderly { IsOrderly image.new }
    ensures live { AllLive image.old → AllLive image.new }
    ensures kept { OnErr result (image.new ≡ image.old) }
    ensures fault { IfErr result (λ fault. fault ≡ ParseFault.Memory) }
{
    match image.add_doit(doit) {
        Err(_) => Err(ParseFault::Memory),
        Ok(()) => Ok(()),
    }
}

/// Puts a do-it of Smalltalk-80 (Goldberg and Robson 1983), with brace arrays, behind those of the image. Names of the text
/// that are new are added to those of the image.
///
/// # Errors
///
/// The first fault of the text, at an offset in bytes from its start, or want of memory; the image is then as it was, but for
/// further names.
pub fn add_doit(alloc: Global, text: &[u8], image: &mut Image) -> Result<(), ParseFault>
    requires { IsOrderly image.old }
    ensures added { OnOk result (IsWithDoIt text.now (image_of image.old) (image_of image.new)) }
    ensures grows { Grows image.old.names image.new.names }
    ensures orderly { IsOrderly image.new }
    ensures live { AllLive image.old → AllLive image.new }
    ensures kept { OnErr result (image_of image.new ≡ image_of image.old) }
    ensures fault { IfErr result (IsRefused whole.DoIt text.now) }
{
    let body = read_doit(alloc, text, image)?;
    let source = Text::from_slice(alloc, text)?;
    put(image, DoIt { source, body })
}
