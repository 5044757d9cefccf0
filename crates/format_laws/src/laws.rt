// The laws. Each function does nothing; its contract is the law.
ghost use Rattle.std.specs.Prelude.{◌≡◌, ℕ};
ghost use Rattle.token_model.specs.declared.kind.Dialect.TheVariants.{Second};
ghost use Rattle.st_kernel.specs.KernelText.{prelude_text};
ghost use Rattle.image_model.specs.Image.{DoItOf, ImageOf, plus};
ghost use Rattle.image_model.specs.Words.{text_words};
ghost use Rattle.image_model.specs.Valid.{IsValid, IsFileable};
ghost use Rattle.run_model.specs.Runs.{run};
ghost use Rattle.file_model.specs.Filing.{Text};
ghost use Rattle.file_model.specs.Fileable.{reading_of};
ghost use Rattle.file_model.specs.Reading.{IsImageOf};
ghost use Rattle.file_model.specs.Written.{file_of};
ghost use Rattle.file_rereading.specs.Rereading.{KernelFirst, with_heads};
ghost use Rattle.canonical_image.specs.Formatted.{formatted};
ghost use Rattle.format_laws.specs.Empty.{HasNoEmptyDoIt};

use bare_model::law_bare_runs;
use file_model::has_one_image;
use file_rereading::{keeps_the_kernel_first, writes_the_same_again};
use grammar_model::spells_doit_or_has_fault;
use kernel_image::{every_image_is_read_again, every_image_is_valid};
use reread_law::{spells_the_tree_again, tells_which_trees_have_a_text};

/// An image with canonical text in place of the sources of the user's methods and of its do-its is valid where the image is, and
/// stands behind the kernel where that does. It can be written where the image can, if no do-it is empty, since the canonical
/// text of an empty one is empty and is no chunk. It has the same runs, also with a further
/// do-it, and written so again it is the same.
pub fn law_formatted_images()
    ensures valid { (kernel image : ImageOf Text) → IsValid text_words (reading_of Second kernel) image → IsValid text_words (reading_of Second kernel) (formatted image) }
    ensures fileable { (kernel image : ImageOf Text) → HasNoEmptyDoIt image → IsValid text_words (reading_of Second kernel) image →
        IsFileable (reading_of Second kernel) image → IsFileable (reading_of Second kernel) (formatted image) }
    ensures first { (kernel image : ImageOf Text) → IsValid text_words (reading_of Second kernel) image → KernelFirst kernel image → KernelFirst kernel (formatted image) }
    ensures run { (image : ImageOf Text) (n : ℕ) → run (formatted image) n ≡ run image n }
    ensures run_again { (image : ImageOf Text) (n : ℕ) → run (with_heads (formatted image)) n ≡ run image n }
    ensures run_further { (image : ImageOf Text) (e : DoItOf Text) (n : ℕ) → run (plus (formatted image) e) n ≡ run (plus image e) n }
    ensures run_further_again { (image : ImageOf Text) (e : DoItOf Text) (n : ℕ) → run (plus (with_heads (formatted image)) e) n ≡ run (plus image e) n }
    ensures twice { (image : ImageOf Text) → formatted (formatted image) ≡ formatted image }
{
    law_bare_runs();
    spells_the_tree_again();
    tells_which_trees_have_a_text();
    spells_doit_or_has_fault();
}

/// Where no do-it of the image of a file-out is empty, the text of the image with canonical text in place of its sources is read
/// again as that image, with the do-its at its head counted anew, and so has the same runs. The image that is read has the
/// same text again when it is written so.
pub fn law_formatted_files()
    ensures read_again { (text : Text) (image : ImageOf Text) → IsImageOf Second prelude_text text image → HasNoEmptyDoIt image →
        IsImageOf Second prelude_text (file_of (formatted image)) (with_heads (formatted image)) }
    ensures run_again { (text : Text) (image again : ImageOf Text) (n : ℕ) → IsImageOf Second prelude_text text image → HasNoEmptyDoIt image →
        IsImageOf Second prelude_text (file_of (formatted image)) again → run again n ≡ run image n }
    ensures same_text { (text : Text) (image again : ImageOf Text) → IsImageOf Second prelude_text text image → HasNoEmptyDoIt image →
        IsImageOf Second prelude_text (file_of (formatted image)) again → file_of (formatted again) ≡ file_of (formatted image) }
{
    law_formatted_images();
    every_image_is_valid();
    every_image_is_read_again();
    keeps_the_kernel_first();
    writes_the_same_again();
    has_one_image();
}
