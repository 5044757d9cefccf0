// The image of a file-out.
ghost use Rattle.std.specs.Prelude.{IfOk, IfErr};
ghost use Rattle.st_kernel.specs.KernelText.{prelude_text};
ghost use Rattle.live_slots.specs.Live.{AllLive};
ghost use Rattle.file_faults.specs.Faults.{IsRefused};
ghost use Rattle.file_faults.specs.Read.{IsReadFrom};

use crate::read::read_draft;
use class_table::Image;
use file_faults::ImageFault;
use image_building::image_from;
use std::alloc::Global;

/// Reads a file-out of Smalltalk-80 (Krasner, "The Smalltalk-80 Code File Format", 1983) behind the text of the kernel, and
/// gives its image, in which the kernel stands, or the first chunk that is refused.
///
/// `ImageFault::Refused` tells the number of the chunk, from 1, the place of the cause, and the cause; `ImageFault::Memory`
/// that memory was wanting.
///
/// All slots of the image are live. The image is valid, and can be written as a file-out and read again, by the law
/// `every_image_is_valid` of `kernel_image`.
pub fn read_image(alloc: Global, text: &[u8]) -> Result<Image, ImageFault>
    ensures ok { IfOk result (IsReadFrom prelude_text text.now) }
    ensures live { IfOk result AllLive }
    ensures err { IfErr result (IsRefused prelude_text text.now) }
{
    let reading = read_draft(alloc, text)?;
    let image = image_from(alloc, reading.names, reading.draft)?;
    Ok(image)
}
