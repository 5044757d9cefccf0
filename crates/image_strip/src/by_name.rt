// Methods by the names of their selectors and of their classes. No clause says what stands in a row: it is only where methods
// are looked for first.
use class_table::{Image, MethodSlot};
use rb_base::{Memory, NameId};
use std::alloc::Global;

/// Puts a slot at the end of the row of a name, if there is one.
fn put(rows: &mut Vec<Vec<MethodSlot>>, name: NameId, slot: MethodSlot) -> Result<(), Memory> {
    if name.0 < rows.len() {
        rows[name.0].push(slot)?;
    }
    Ok(())
}

/// For each name of the image the slots of the live methods whose selector or class has it.
pub(crate) fn methods_by_name(
    alloc: Global,
    image: &Image,
) -> Result<Vec<Vec<MethodSlot>>, Memory> {
    let mut rows = Vec::new(alloc);
    for _ in 0..image.names().len() {
        rows.push(Vec::new(alloc))?;
    }
    for slot in image.methods() {
        if let Some(info) = image.method_info(*slot) {
            put(&mut rows, info.selector, *slot)?;
            if let Some(rec) = image.class_rec(info.class) {
                put(&mut rows, rec.name, *slot)?;
            }
        }
    }
    Ok(rows)
}

/// The row of a name, empty if there is none.
pub(crate) fn row(rows: &[Vec<MethodSlot>], name: NameId) -> &[MethodSlot] {
    match rows.get(name.0) {
        Some(slots) => slots.as_slice(),
        None => &[],
    }
}
