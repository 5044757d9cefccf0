// Where a method stands in the order that comes behind the last one of its class on its side.
ghost use Rattle.std.specs.Prelude.{◌≡◌};
ghost use Rattle.class_table.specs.Valid.{IsOrderly};
ghost use Rattle.code_plans.specs.Behind as behind;

use class_table::{Image, MethodSlot};
use rb_base::NameId;

/// Whether the slot is live and holds a method of the class on the side.
fn is_beside(image: &Image, class: NameId, meta: bool, slot: MethodSlot) -> bool
    requires { IsOrderly image.now }
    ensures { result ≡ behind.is_beside image.now class meta slot }
{
    let Some(info) = image.method_info(slot) else {
        return false;
    };
    let Some(rec) = image.class_rec(info.class) else {
        return false;
    };
    class == rec.name && meta == info.meta
}

/// The place behind the last method of the class on the side, if there is one. Looks at none before that one.
pub(crate) fn place_behind(image: &Image, class: NameId, meta: bool) -> Option<usize>
    requires { IsOrderly image.now }
    ensures { result ≡ behind.behind_last (behind.is_beside image.now class meta) image.now.method_order }
{
    let methods = image.methods();
    let mut place = methods.len();
    while place > 0 {
        if is_beside(image, class, meta, methods[place - 1]) {
            return Some(place);
        }
        place -= 1;
    }
    None
}
