// Images without what is not reached.
ghost use Rattle.std.specs.Prelude.{◌≡◌, filter, nat_eq};
ghost use Rattle.strip_model.specs.Stripped.{strip};
ghost use Rattle.class_table.specs.Valid.{IsLive, IsOrderly};
ghost use Rattle.class_table.specs.View.{number_image};
ghost use Rattle.image_strip.specs.Once.{HasMethodsOnce};
ghost use Rattle.image_strip.specs.Closed.{IsClosedForSome};
ghost use Rattle.image_strip.specs.Reached.{is_marked, reached};
ghost use Rattle.image_strip.specs.Stripped.{is_class_marked};

use crate::anew::anew;
use crate::marks::Reach;
use class_table::{ClassId, Image, Slot};
use rb_base::Memory;
use std::marker::Brand;
use std::sync::ledger::Blank;

/// Whether the class in a live slot is reached.
pub(crate) fn is_class_reached(image: &Image, reach: &Reach, id: ClassId) -> bool
    requires { IsLive image.now.class_order id }
    ensures { result ≡ is_class_marked image.now.classes reach.now.classes id }
{
    match image.class_rec(id) {
        None => false,
        Some(rec) => reach.has_class(rec.name),
    }
}

/// Takes out the methods that are not reached.
fn strip_methods(image: &mut Image, reach: &Reach)
    ensures { image.new ≡ record image.old { method_order = filter (is_marked reach.now.methods) image.old.method_order } }
{
    let mut left = image.methods().len();
    while left > 0 {
        left -= 1;
        let slot = image.methods()[left];
        if !reach.has_method(slot) {
            let _ = image.set_live(Slot::Method(slot), None);
        }
    }
}

/// Takes out the classes that are not reached.
fn strip_classes(image: &mut Image, reach: &Reach)
    ensures { image.new ≡ record image.old { class_order = filter (is_class_marked image.old.classes reach.now.classes) image.old.class_order } }
{
    let mut left = image.classes().len();
    while left > 0 {
        left -= 1;
        let id = image.classes()[left];
        if !is_class_reached(image, reach, id) {
            let _ = image.set_live(Slot::Class(id), None);
        }
    }
}

/// Puts another image in the place of this one, which keeps its names.
fn replace_all_but_names(image: &mut Image, mut made: Image)
    ensures { image.new ≡ record made { names = image.old.names } }
{
    std::mem::swap(image.names_mut(), made.names_mut());
    std::mem::swap(image, &mut made);
}

/// Takes out the methods and the classes that are not reached. What is reached must be closed for the image with some do-it at
/// the end; then the image that is left is orderly. What is left moves to slots of its own, in one pass. Where memory is short
/// the slots stay, and each that is not reached is taken out of the order, which moves those behind it.
pub fn strip(image: &mut Image, reach: &Reach)
    requires orderly { IsOrderly image.old }
    requires once { HasMethodsOnce image.old }
    requires closed { IsClosedForSome image.old reach.now }
    ensures image { number_image image.new ≡ strip nat_eq (reached image.old reach.now) (number_image image.old) }
    ensures names { image.new.names ≡ image.old.names }
    ensures orderly { IsOrderly image.new }
{
    match anew::<Brand>(image, reach, Blank::new(1)) {
        Ok(made) => replace_all_but_names(image, made),
        Err(Memory) => {
            strip_methods(image, reach);
            strip_classes(image, reach);
        }
    }
}
