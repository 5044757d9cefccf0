// What an expression reaches, and whether that is closed; no form of the program asks the second.
ghost use Rattle.std.specs.Prelude.{◌≡◌, ◌<◌};
ghost use Rattle.class_table.specs.Valid.{IsOrderly};
ghost use Rattle.image_strip.specs.Once.{HasMethodsOnce};

use class_table::Image;
use image_strip::{is_closed, reach};
use rb_base::{Memory, Names, Steps};
use st_parser::parse_doit;
use st_tree::Sequence;
use std::alloc::Global;
use std::marker::Brand;
use std::sync::ledger::{Blank, Ledger};

/// Whether what the expression reaches is closed with it, and what the other one reaches is not.
fn is_told<L: Ledger>(
    alloc: Global,
    image: &Image,
    expression: &Sequence,
    other: &Sequence,
    blank: Blank,
) -> Result<bool, Memory>
    requires orderly { IsOrderly image.now }
    requires once { HasMethodsOnce image.now }
    requires name { blank.name ≡ L.name }
    requires parts { blank.parts ≡ L.parts }
    requires some { 0 < L.parts }
{
    let mut steps = Steps::<L>::new(blank);
    let whole = reach(alloc, image, expression, &mut steps)?;
    let part = reach(alloc, image, other, &mut steps)?;
    let is_whole = is_closed(alloc, image, expression, &whole, &mut steps)?;
    let is_part = is_closed(alloc, image, expression, &part, &mut steps)?;
    Ok(is_whole && !is_part)
}

/// Whether this is so of two expressions of which one sends a message, in an image of nothing.
#[tactic(auto, using(crate::proofs::Blank::orderly_blank, crate::proofs::Blank::once_blank))]
fn are_told(alloc: Global) -> bool {
    let image = Image::new(alloc);
    let mut names = Names::new(alloc);
    let Ok(expression) = parse_doit(alloc, b"3 printString", &mut names) else {
        return false;
    };
    let Ok(other) = parse_doit(alloc, b"3", &mut names) else {
        return false;
    };
    is_told::<Brand>(alloc, &image, &expression, &other, Blank::new(1)) == Ok(true)
}

#[test]
fn what_is_closed_is_told(rt: HostRuntime) {
    assert!(rt; are_told(rt.alloc()));
}
