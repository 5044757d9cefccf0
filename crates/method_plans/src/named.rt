// Classes by their name.
ghost use Rattle.std.specs.Prelude.{◌≡◌};
ghost use Rattle.method_plans.specs.Named as named;

use class_table::{ClassId, Image};
use rb_base::NameId;

/// The superclass of the class of the name, if it has one.
pub fn superclass(image: &Image, name: NameId) -> Option<ClassId>
    ensures { result ≡ named.superclass_slot image.now name }
{
    image.class_rec(image.class_named(name)?)?.superclass
}
