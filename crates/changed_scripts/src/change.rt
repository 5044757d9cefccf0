// The answer to a script in an image, as a change file.
ghost use Rattle.std.specs.Prelude.{◌≡◌, [], IfOk, OnErr};
ghost use Rattle.class_table.specs.View.{image_of};
ghost use Rattle.class_table.specs.Valid.{IsOrderly};
ghost use Rattle.live_slots.specs.Live.{AllLive};
ghost use Rattle.changes_model.specs.Changes.{ChangesIn};
ghost use Rattle.changed_scripts.specs.OneText.{AreOfOneText};

use crate::laws::law_of_one_text;
use applied_scripts::{Changed, change_image};
use apply_model::Status;
use change_file::write_changes;
use class_table::Image;
use rb_base::{Memory, Text};
use std::alloc::Global;

/// Appends the answer of `changes` to a script in the image of a text that was read twice. Each command is performed in `image`,
/// in what those before it made of it, and what is to be filed in after the text to have that is written; or the first line that
/// is wrong is told, or the first command that is refused.
///
/// `image` is then the one after the commands that were performed.
///
/// # Errors
///
/// `Memory` if there is no memory for the commands or for the answer; `out` is then as it was.
pub fn change_script(
    alloc: Global,
    old: &Image,
    image: &mut Image,
    script: &[u8],
    out: &mut Text,
) -> Result<Status, Memory>
    requires old { IsOrderly old.now }
    requires orderly { IsOrderly image.old }
    requires live { AllLive image.old }
    requires one_text { AreOfOneText (image_of old.now) (image_of image.old) }
    requires empty { out.old ≡ [] }
    ensures answered { IfOk result (λ status. ChangesIn (image_of old.now) script.now status out.new) }
    ensures kept { OnErr result (out.new ≡ out.old) }
{
    law_of_one_text();
    match change_image(alloc, image, script, out)? {
        Changed::Done { .. } => {
            write_changes(alloc, old, image, out)?;
            Ok(Status::Done)
        }
        Changed::Told(status) => Ok(status),
    }
}
