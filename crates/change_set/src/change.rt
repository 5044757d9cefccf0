// One change of an image.
ghost use Rattle.std.specs.Prelude.{◌≡◌};
ghost use Rattle.change_set.specs.Change.{applied, inverse, CanApply};

use crate::part::swap_part;
use class_table::{ClassId, ClassRec, DoIt, Image, MethodRec, MethodSlot, Place, Slot};
use rb_base::Text;
use st_tree::{Node, Path};

/// One change of an image. Once it is applied, it holds what stood there before.
#[derive(Drop)]
pub enum Change {
    /// Another class in a slot, live or not.
    Class {
        id: ClassId,
        rec: ClassRec,
    },
    /// Another method in a slot, live or not.
    Method {
        slot: MethodSlot,
        rec: MethodRec,
    },
    /// Another do-it of a number, from 0.
    DoIt {
        number: usize,
        doit: DoIt,
    },
    /// Another node where a path into the body of a live method or a do-it leads, and another source of that code.
    Part {
        place: Place,
        path: Path,
        part: Node,
        source: Text,
    },
    /// Another place of a slot in the order of the live ones, from 0, or none, by which it is not live.
    Live {
        what: Slot,
        place: Option<usize>,
    },
}

/// Puts what the change holds into the image, and leaves in the change what stood there. What the change speaks of must
/// be there.
pub fn apply_change(image: &mut Image, change: &mut Change)
    requires { CanApply image.old change.old }
    ensures image { image.new ≡ applied image.old change.old }
    ensures change { change.new ≡ inverse image.old change.old }
{
    match change {
        Change::Class { id, rec } => image.swap_class(*id, rec),
        Change::Method { slot, rec } => image.swap_method(*slot, rec),
        Change::DoIt { number, doit } => image.swap_doit(*number, doit),
        Change::Part {
            place,
            path,
            part,
            source,
        } => {
            swap_part(image, *place, path, part);
            image.swap_source(*place, source);
        }
        Change::Live { what, place } => {
            *place = image.set_live(*what, *place);
        }
    }
}
