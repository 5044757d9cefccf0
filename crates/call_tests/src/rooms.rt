// That room is made in an image, and that a change is noted, where there is memory.
use crate::classes::class;
use change_set::{Change, Changes};
use class_table::{ClassId, Image, MethodRec, Slot};
use rb_base::{Ids, NameId, Text};
use slot_room::{room_for_class, room_for_method};
use st_tree::{Comments, Method, Sequence, Statements};
use std::alloc::Global;

/// A method of the first class, without statements.
fn method(alloc: Global) -> MethodRec {
    let body = Sequence {
        temporaries: Ids::new(alloc),
        statements: Statements::new(alloc),
        tail: Comments::new(alloc),
    };
    let tree = Method {
        selector: NameId(1),
        arguments: Ids::new(alloc),
        head: Comments::new(alloc),
        primitive: None,
        body,
    };
    MethodRec {
        class: ClassId(0),
        meta: false,
        protocol: Text::new(alloc),
        source: Text::new(alloc),
        tree,
        kernel: false,
    }
}

/// Whether a change is noted.
fn notes_a_change(alloc: Global) -> bool {
    let mut changes = Changes::new(alloc);
    let change = Change::Live {
        what: Slot::Class(ClassId(0)),
        place: Some(0),
    };
    changes.push(change).is_ok()
}

#[test]
fn room_is_made_and_changes_are_noted(rt: HostRuntime) {
    let mut image = Image::new(rt.alloc());
    assert!(rt; room_for_class(&mut image, class(rt.alloc(), 0, None)).is_ok());
    assert!(rt; room_for_method(&mut image, method(rt.alloc())).is_ok());
    assert!(rt; image.classes().is_empty() && image.methods().is_empty());
    assert!(rt; notes_a_change(rt.alloc()));
}
