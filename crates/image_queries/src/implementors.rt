// The methods of users that implement a selector.
ghost use Rattle.std.specs.Prelude.{◌≡◌, flat_map, IfOk};
ghost use Rattle.class_table.specs.Valid.{IsLive, IsOrderly};
ghost use Rattle.image_queries.specs.Parts.{slot_line};

use crate::titles::method_title;
use class_table::{Image, MethodSlot};
use rb_base::{Memory, NameId, Text};
use std::alloc::Global;

/// The line of the method in a live slot, if it is one of a user and implements the selector.
fn slot_line(
    alloc: Global,
    image: &Image,
    selector: NameId,
    slot: MethodSlot,
) -> Result<Text, Memory>
    requires orderly { IsOrderly image.now }
    requires live { IsLive image.now.method_order slot }
    ensures { IfOk result (λ line. line ≡ slot_line image.now selector slot) }
{
    match image.method_info(slot) {
        None => Ok(Text::new(alloc)),
        Some(info) => {
            if info.kernel || selector != info.selector {
                return Ok(Text::new(alloc));
            }
            let mut line = method_title(alloc, image, &info)?;
            line.push_slice(b"\n")?;
            Ok(line)
        }
    }
}

/// The lines of the methods of users that implement the selector.
pub(crate) fn implementor_lines(
    alloc: Global,
    image: &Image,
    selector: NameId,
) -> Result<Text, Memory>
    requires { IsOrderly image.now }
    ensures { IfOk result (λ text. text ≡ flat_map (slot_line image.now selector) image.now.method_order) }
{
    let mut text = Text::new(alloc);
    for slot in image.methods() {
        let line = slot_line(alloc, image, selector, *slot)?;
        text.push_slice(line.as_slice())?;
    }
    Ok(text)
}
