// That the tree of a class is listed where there is memory; no clause says so.
ghost use Rattle.std.specs.Prelude.{◌≡◌, [], OnOk};
ghost use Rattle.class_table.specs.Valid.{SuperclassesFirst};

use class_table::{ClassId, ClassIds, ClassRec, Image};
use rb_base::{Ids, Memory, NameId, Text};
use std::alloc::Global;

/// A class of a name without variables.
pub(crate) fn class(alloc: Global, name: usize, superclass: Option<ClassId>) -> ClassRec
    ensures { result.superclass ≡ superclass }
{
    ClassRec {
        name: NameId(name),
        superclass,
        instance: Ids::new(alloc),
        shared: Ids::new(alloc),
        class_side: Ids::new(alloc),
        category: Text::new(alloc),
        comment: Text::new(alloc),
        kernel: false,
    }
}

/// Adds two classes, the second one below the first.
fn put_two(alloc: Global, image: &mut Image) -> Result<(), Memory>
    requires none { image.old.classes ≡ [] }
    requires order { image.old.class_order ≡ [] }
    ensures { OnOk result (SuperclassesFirst image.new.classes image.new.class_order) }
{
    let first = class(alloc, 0, None);
    let second = class(alloc, 1, Some(ClassId(0)));
    if image.add_class(first).is_err() {
        return Err(Memory);
    }
    if image.add_class(second).is_err() {
        return Err(Memory);
    }
    Ok(())
}

/// Whether the tree of a class is appended, in an image of none.
fn tree_reads(alloc: Global, image: &mut Image) -> Result<bool, Memory>
    requires none { image.old.classes ≡ [] }
    requires order { image.old.class_order ≡ [] }
{
    put_two(alloc, image)?;
    let mut found = ClassIds::new(alloc);
    found.push(ClassId(7))?;
    image.tree_of(ClassId(0), &mut found)?;
    let wanted = [ClassId(7), ClassId(0), ClassId(1)];
    Ok(found.as_slice() == wanted.as_slice())
}

#[test]
fn the_tree_of_a_class_is_listed(rt: HostRuntime) {
    let mut image = Image::new(rt.alloc());
    assert!(rt; tree_reads(rt.alloc(), &mut image) == Ok(true));
}
