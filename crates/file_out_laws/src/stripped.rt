// The laws. Each function does nothing; its contract is the law.
ghost use Rattle.std.specs.Prelude.{◌≡◌, ℕ, true};
ghost use Rattle.rb_base.specs.Names.{text_eq};
ghost use Rattle.token_model.specs.declared.kind.Dialect.{Dialect};
ghost use Rattle.token_model.specs.declared.kind.Dialect.TheVariants.{Second};
ghost use Rattle.st_kernel.specs.KernelText.{prelude_text};
ghost use Rattle.image_model.specs.Image.{DoItOf, ImageOf, plus};
ghost use Rattle.image_model.specs.Words.{text_words};
ghost use Rattle.image_model.specs.Valid.{IsValid, IsFileable};
ghost use Rattle.run_model.specs.Runs.{run};
ghost use Rattle.run_model.specs.Renamings.{no_renaming};
ghost use Rattle.run_model.specs.Matched.{AreMatched};
ghost use Rattle.file_model.specs.Filing.{Text};
ghost use Rattle.file_model.specs.Fileable.{reading_of};
ghost use Rattle.file_model.specs.Reading.{IsImageOf, IsKernelOf};
ghost use Rattle.file_model.specs.Written.{file_of};
ghost use Rattle.file_rereading.specs.Rereading.{with_heads};
ghost use Rattle.strip_model.specs.Reach.{ReachOf, is_closed};
ghost use Rattle.strip_model.specs.Stripped.{strip};

use crate::lookups::every_image_has_kernel_chains;
use crate::renamings::every_image_may_be_renamed;
use file_rereading::keeps_the_kernel_first;
use kernel_image::{every_image_is_read_again, every_image_is_valid};
use strip_laws::law_stripped;

/// Where classes, selectors and methods are closed for a valid image behind the kernel with one more do-it, the image without
/// the other classes and methods is valid, and can be written as a file and read again if the image can; and with that do-it
/// it has the same runs: the same events, outcome and ticks, for each number of ticks.
pub fn law_stripped_images()
    ensures valid { (dialect : Dialect) (kernel image : ImageOf Text) (e : DoItOf Text) (r : ReachOf Text) → IsKernelOf dialect prelude_text kernel → IsValid text_words (reading_of dialect kernel) image →
        is_closed text_words (plus image e) r ≡ true → IsValid text_words (reading_of dialect kernel) (strip text_eq r image) }
    ensures fileable { (dialect : Dialect) (kernel image : ImageOf Text) (r : ReachOf Text) → IsFileable (reading_of dialect kernel) image → IsFileable (reading_of dialect kernel) (strip text_eq r image) }
    ensures run { (dialect : Dialect) (kernel image : ImageOf Text) (e : DoItOf Text) (r : ReachOf Text) (n : ℕ) → IsKernelOf dialect prelude_text kernel → IsValid text_words (reading_of dialect kernel) image →
        is_closed text_words (plus image e) r ≡ true → run (plus (strip text_eq r image) e) n ≡ run (plus image e) n }
    ensures matched { (dialect : Dialect) (kernel image : ImageOf Text) (e : DoItOf Text) (r : ReachOf Text) → IsKernelOf dialect prelude_text kernel → IsValid text_words (reading_of dialect kernel) image →
        is_closed text_words (plus image e) r ≡ true → AreMatched (plus image e) (plus (strip text_eq r image) e) no_renaming }
{
    every_image_may_be_renamed();
    every_image_has_kernel_chains();
    law_stripped();
}

/// So it is of the image of each file-out that is read behind the kernel. The text of the image without the rest, read behind
/// the kernel, makes that image again, which counts its do-its as reading does; so the file that is written has the same runs as
/// the one that was read.
pub fn law_stripped_files()
    ensures run { (dialect : Dialect) (file : Text) (image : ImageOf Text) (e : DoItOf Text) (r : ReachOf Text) (n : ℕ) → IsImageOf dialect prelude_text file image →
        is_closed text_words (plus image e) r ≡ true → run (plus (strip text_eq r image) e) n ≡ run (plus image e) n }
    ensures matched { (dialect : Dialect) (file : Text) (image : ImageOf Text) (e : DoItOf Text) (r : ReachOf Text) → IsImageOf dialect prelude_text file image →
        is_closed text_words (plus image e) r ≡ true → AreMatched (plus image e) (plus (strip text_eq r image) e) no_renaming }
    ensures reread { (file : Text) (image : ImageOf Text) (e : DoItOf Text) (r : ReachOf Text) → IsImageOf Second prelude_text file image →
        is_closed text_words (plus image e) r ≡ true → IsImageOf Second prelude_text (file_of (strip text_eq r image)) (with_heads (strip text_eq r image)) }
    ensures reread_run { (file : Text) (image : ImageOf Text) (e : DoItOf Text) (r : ReachOf Text) (n : ℕ) → IsImageOf Second prelude_text file image →
        is_closed text_words (plus image e) r ≡ true → run (plus (with_heads (strip text_eq r image)) e) n ≡ run (plus image e) n }
{
    every_image_is_valid();
    every_image_is_read_again();
    keeps_the_kernel_first();
    law_stripped_images();
}
