// Classes on chains, by the texts of their names.
ghost use Rattle.std.specs.Prelude.{◌≡◌, length, Some};
ghost use Rattle.std.specs.List.{list_any};
ghost use Rattle.rb_base.specs.Names.{text_eq, name_at};
ghost use Rattle.image_model.specs.Image.{ClassOf};
ghost use Rattle.image_model.specs.Upwards.{upwards};
ghost use Rattle.image_model.specs.Chain.{chain};
ghost use Rattle.run_model.specs.Values.{Name};
ghost use Rattle.class_table.specs.View.{image_of};
ghost use Rattle.class_table.specs.Valid.{IsOrderly};
ghost use Rattle.st_prims.specs.Walks.{slot_of_text, has_text, next_above};

use class_table::{ClassId, Image};
use rb_base::{NameId, Names};
use st_meaning::same_text;

/// The first live class of a name, by its text.
pub fn class_of_text(image: &Image, name: &[u8]) -> Option<ClassId>
    ensures { result ≡ slot_of_text image.now name.now }
{
    let id = image.names().find(name)?;
    image.class_named(id)
}

/// The text of a number, and the empty text where there is none.
fn name_text(names: &Names, id: NameId) -> &[u8]
    ensures { result.now ≡ name_at names.now id }
{
    if id.0 < names.len() {
        names.text_of(id)
    } else {
        &[]
    }
}

/// Whether the class in a slot is live and has the name.
fn has_text(image: &Image, id: ClassId, name: &[u8]) -> bool
    ensures { result ≡ has_text image.now name.now id }
{
    match image.class_rec(id) {
        Some(rec) => same_text(name, name_text(image.names(), rec.name)),
        None => false,
    }
}

/// Whether a class has the name that is a class or above it.
fn has_above(image: &Image, from: Option<ClassId>, name: &[u8]) -> bool
    ensures { result ≡ list_any (has_text image.now name.now) (upwards (next_above image.now) (length image.now.class_order) from) }
{
    let mut at = from;
    let mut left = image.classes().len();
    while left > 0 {
        let Some(id) = at else {
            return false;
        };
        if has_text(image, id, name) {
            return true;
        }
        at = image.chain_at(id, 1);
        left -= 1;
    }
    false
}

/// Whether a class stands on the chain of the class of another name.

pub(crate) fn is_on_chain(image: &Image, class: &[u8], name: &[u8]) -> bool
    requires { IsOrderly image.now }
    ensures { result ≡ list_any (λ (k : ClassOf Name). text_eq class.now k.name) (chain text_eq (image_of image.now).classes (Some name.now)) }
{
    has_above(image, class_of_text(image, name), class)
}
