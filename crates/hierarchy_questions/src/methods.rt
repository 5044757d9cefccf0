// The methods that a class itself has.
ghost use Rattle.std.specs.Prelude.{◌≡◌, nat_eq};
ghost use Rattle.class_table.specs.Valid.{IsOrderly};
ghost use Rattle.class_table.specs.View.{number_image};
ghost use Rattle.command_model.specs.MethodConditions as conditions;
ghost use Rattle.reference_index.specs.Mentioned.{IsIndexOf};
ghost use Rattle.hierarchy_questions.specs.OwnMethods.{own_slot, is_own_at};

use class_table::{ClassId, Image, MethodSlot, Place};
use commands::MethodName;
use reference_index::Index;

/// The slot of the method, if the class is there and itself has it.
pub fn own_method(image: &Image, method: MethodName) -> Option<MethodSlot>
    requires { IsOrderly image.now }
    ensures { result ≡ own_slot image.now method.class method.meta method.selector }
{
    let class = image.class_named(method.class)?;
    let slot = image.lookup(class, method.meta, method.selector)?;
    match image.method_info(slot) {
        Some(info) if class == info.class && method.meta == info.meta => Some(slot),
        _ => None,
    }
}

/// Whether the class itself has the method, and it is one of the user.
pub fn implements(image: &Image, method: MethodName) -> bool
    requires { IsOrderly image.now }
    ensures { result ≡ conditions.implements nat_eq (number_image image.now) method.class method.meta method.selector }
{
    let Some(slot) = own_method(image, method) else {
        return false;
    };
    match image.method_info(slot) {
        None => false,
        Some(info) => !info.kernel,
    }
}

/// Whether the method at a place is that of the class in a slot, for the side and the selector of the method.
fn is_own(image: &Image, place: Place, class: ClassId, method: MethodName) -> bool
    ensures { result ≡ is_own_at image.now class method.meta method.selector place }
{
    let Place::Method(slot) = place else {
        return false;
    };
    match image.method_info(slot) {
        None => false,
        Some(info) => {
            class == info.class && method.meta == info.meta && method.selector == info.selector
        }
    }
}

/// Whether the class is there, and itself has no such method. Looks only at places that mention the selector.
pub fn lacks_method(image: &Image, index: &Index, method: MethodName) -> bool
    requires orderly { IsOrderly image.now }
    requires index { IsIndexOf image.now index.now }
    ensures { result ≡ conditions.lacks_method nat_eq (number_image image.now) method.class method.meta method.selector }
{
    let Some(class) = image.class_named(method.class) else {
        return false;
    };
    let places = index.listed(method.selector);
    !places
        .iter()
        .any(|place| is_own(image, *place, class, method))
}
