// Copies of the records of classes.
ghost use Rattle.std.specs.Prelude.{◌≡◌, IfOk};

use class_table::ClassRec;
use rb_base::Memory;
use std::alloc::Global;

/// A copy of the record of a class.
pub fn copied(alloc: Global, rec: &ClassRec) -> Result<ClassRec, Memory>
    ensures { IfOk result (λ copy. copy ≡ rec.now) }
{
    Ok(ClassRec {
        name: rec.name,
        superclass: rec.superclass,
        instance: rec.instance.try_copy(alloc)?,
        shared: rec.shared.try_copy(alloc)?,
        class_side: rec.class_side.try_copy(alloc)?,
        category: rec.category.try_copy(alloc)?,
        comment: rec.comment.try_copy(alloc)?,
        kernel: rec.kernel,
    })
}
