// Images without what an expression cannot reach.
ghost use Rattle.std.specs.Prelude.{◌≡◌, ◌<◌, length, IfOk, IfErr, OnOk, OnErr};
ghost use Rattle.rb_base.specs.Names.{text_eq, name_at};
ghost use Rattle.tree_model.specs.AllNames.{SequenceNames};
ghost use Rattle.grammar_model.specs.Whole as whole;
ghost use Rattle.st_tree.specs.View.{sequence_of};
ghost use Rattle.st_faults.specs.Faults.{IsRefused};
ghost use Rattle.image_model.specs.Image.{map_doit, plus};
ghost use Rattle.image_model.specs.Words.{text_words};
ghost use Rattle.strip_model.specs.Reach.{reach};
ghost use Rattle.strip_model.specs.Stripped.{strip};
ghost use Rattle.class_table.specs.Valid.{IsOrderly};
ghost use Rattle.class_table.specs.View.{image_of};
ghost use Rattle.image_strip.specs.Closed.{start_of};
ghost use Rattle.image_strip.specs.Once.{HasMethodsOnce};
ghost use Rattle.strip_texts.specs.Left.{IsLeastFor, IsLeftFor};

use class_table::Image;
use image_doits::read_doit;
use image_strip::{Reach, reach, strip};
use rb_base::{Memory, Steps};
use st_faults::ParseFault;
use st_tree::Sequence;
use std::alloc::Global;
use std::marker::Brand;
use std::sync::ledger::{Blank, Ledger};

/// What the do-its of the image and the expression reach.
fn reached<L: Ledger>(
    alloc: Global,
    image: &Image,
    start: &Sequence,
    blank: Blank,
) -> Result<Reach, Memory>
    requires orderly { IsOrderly image.now }
    requires once { HasMethodsOnce image.now }
    requires name { blank.name ≡ L.name }
    requires parts { blank.parts ≡ L.parts }
    requires some { 0 < L.parts }
    ensures { IfOk result (IsLeastFor image.now start.now) }
{
    let mut steps = Steps::<L>::new(blank);
    reach(alloc, image, start, &mut steps)
}

/// Takes out of the image what its do-its and the expression do not reach. Classes and methods are found by tables. On want of
/// memory the image is as it was.
fn strip_from(alloc: Global, image: &mut Image, start: &Sequence) -> Result<(), Memory>
    requires orderly { IsOrderly image.old }
    requires once { HasMethodsOnce image.old }
    requires known { SequenceNames (λ n. n < length image.old.names) (sequence_of start.now) }
    ensures image { OnOk result (image_of image.new ≡ strip text_eq (reach text_words (plus (image_of image.old) (map_doit (name_at image.old.names) (start_of start.now)))) (image_of image.old)) }
    ensures orderly { IsOrderly image.new }
    ensures kept { OnErr result (image.new ≡ image.old) }
{
    image.reindex()?;
    let found = reached::<Brand>(alloc, image, start, Blank::new(1))?;
    strip(image, &found);
    Ok(())
}

/// Takes out of the image the classes and the methods of users that its do-its and the expression, as its last do-it, cannot
/// reach. The expression is Smalltalk-80 with brace arrays; names of it that are new are added to those of the image.
///
/// # Errors
///
/// The first fault of the expression, at an offset in bytes from its start, or want of memory; the image is then as it was, but
/// for further names.
pub fn strip_for(alloc: Global, expression: &[u8], image: &mut Image) -> Result<(), ParseFault>
    requires orderly { IsOrderly image.old }
    requires once { HasMethodsOnce image.old }
    ensures left { OnOk result (IsLeftFor expression.now (image_of image.old) (image_of image.new)) }
    ensures orderly { IsOrderly image.new }
    ensures kept { OnErr result (image_of image.new ≡ image_of image.old) }
    ensures fault { IfErr result (IsRefused whole.DoIt expression.now) }
{
    let start = read_doit(alloc, expression, image)?;
    match strip_from(alloc, image, &start) {
        Ok(()) => Ok(()),
        Err(Memory) => Err(ParseFault::Memory),
    }
}
