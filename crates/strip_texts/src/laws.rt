// A law of file-outs. The function does nothing; its contract is the law.
ghost use Rattle.std.specs.Prelude.{List, ℕ, map};
ghost use Rattle.token_model.specs.declared.kind.Dialect.TheVariants.{Second};
ghost use Rattle.image_model.specs.Image.{ImageOf};
ghost use Rattle.image_model.specs.Valid.{HasNoRepeat, signature};
ghost use Rattle.st_kernel.specs.KernelText.{prelude_text};
ghost use Rattle.file_model.specs.Reading.{IsImageOf};

use kernel_image::{every_image_is_valid, kernel_is_read};

/// No two methods of the image of a file-out have one class, one side and one selector.
pub fn methods_stand_once()
    ensures { (text : List ℕ) (image : ImageOf (List ℕ)) → IsImageOf Second prelude_text text image → HasNoRepeat (map signature image.methods) }
{
    kernel_is_read();
    every_image_is_valid();
}
