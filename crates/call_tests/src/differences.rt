// That what differs between two images is listed where there is memory; no clause says so.
ghost use Rattle.std.specs.Prelude.{IfOk};
ghost use Rattle.class_table.specs.View.{image_of};
ghost use Rattle.class_table.specs.Valid.{IsOrderly};
ghost use Rattle.change_file.specs.Shown.{IsToldApart};

use change_file::{Member, differs};
use class_table::{ClassId, Image, MethodSlot};
use file_reading::read_image;
use kernel_image::every_image_is_valid;
use rb_base::{Memory, Text};
use std::alloc::Global;

/// The beginning of a definition before the name of the class.
const BELOW: &[u8] = b"Object subclass: #";

/// The rest of it.
const DEFINED: &[u8] =
    b" instanceVariableNames: '' classVariableNames: '' poolDictionaries: '' category: ''! ";

const EARLIER: &[u8] =
    b"!A methodsFor: ''! one ^1! two ^2! ! !B methodsFor: ''! three ^3! ! 1 foo! 2 foo! 3 foo!";

/// The same with another method, a class of another name and a do-it at another place.
const LATER: &[u8] =
    b"!A methodsFor: ''! one ^4! two ^2! ! !D methodsFor: ''! three ^3! ! 2 foo! 1 foo! 3 foo!";

/// Appends the definition of a class.
fn define(name: &[u8], out: &mut Text) -> Result<(), Memory> {
    out.push_slice(BELOW)?;
    out.push_slice(name)?;
    out.push_slice(DEFINED)
}

/// A file-out of the class `A`, another class, and the rest.
fn file(alloc: Global, name: &[u8], rest: &[u8]) -> Result<Text, Memory> {
    let mut text = Text::new(alloc);
    define(b"A", &mut text)?;
    define(name, &mut text)?;
    text.push_slice(rest)?;
    Ok(text)
}

/// The image of a file-out.
fn image_in(alloc: Global, text: &[u8]) -> Result<Image, Memory>
    ensures orderly { IfOk result IsOrderly }
    ensures apart { IfOk result (λ image. IsToldApart (image_of image)) }
{
    every_image_is_valid();
    match read_image(alloc, text) {
        Ok(image) => Ok(image),
        Err(_) => Err(Memory),
    }
}

/// The image of the file-out of these.
fn image_with(alloc: Global, name: &[u8], rest: &[u8]) -> Result<Image, Memory>
    ensures orderly { IfOk result IsOrderly }
    ensures apart { IfOk result (λ image. IsToldApart (image_of image)) }
{
    let text = file(alloc, name, rest)?;
    image_in(alloc, text.as_slice())
}

/// Whether what differs is the class after `A`, with its method, the first method of `A`, and the first two do-its. Before these
/// stand the 20 classes and 167 methods of the kernel.
fn is_listed(alloc: Global, earlier: &Image, later: &Image) -> Result<bool, Memory>
    requires earlier { IsOrderly earlier.now }
    requires later { IsOrderly later.now }
    requires earlier_apart { IsToldApart (image_of earlier.now) }
    requires later_apart { IsToldApart (image_of later.now) }
{
    let found = differs(alloc, earlier, later)?;
    let classes = [Member::Earlier(ClassId(21)), Member::Later(ClassId(21))];
    let methods = [
        Member::Earlier(MethodSlot(167)),
        Member::Earlier(MethodSlot(169)),
        Member::Later(MethodSlot(169)),
    ];
    let doits = [1, 2];
    Ok(
        found.classes.as_slice() == classes.as_slice()
            && found.methods.as_slice() == methods.as_slice()
            && found.doits.as_slice() == doits.as_slice(),
    )
}

/// Whether it is so of the two file-outs.
fn is_listed_of_files(alloc: Global) -> Result<bool, Memory> {
    let earlier = image_with(alloc, b"B", EARLIER)?;
    let later = image_with(alloc, b"D", LATER)?;
    is_listed(alloc, &earlier, &later)
}

#[test]
fn what_differs_is_listed(rt: HostRuntime) {
    assert!(rt; is_listed_of_files(rt.alloc()) == Ok(true));
}
