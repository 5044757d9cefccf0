// The laws. Each function does nothing; its contract is the law.
ghost use Rattle.std.specs.Prelude.{◌≡◌, List, Ok};
ghost use Rattle.std.specs.List.{AllByRecursion};
ghost use Rattle.token_model.specs.declared.kind.Dialect.TheVariants.{Second};
ghost use Rattle.st_kernel.specs.KernelText.{prelude_text};
ghost use Rattle.image_model.specs.Image.{DoItOf, ImageOf, plus};
ghost use Rattle.run_model.specs.Values.{Name};
ghost use Rattle.run_model.specs.Matched.{AreMatched};
ghost use Rattle.image_model.specs.Valid.{IsValid};
ghost use Rattle.image_model.specs.Words.{text_words};
ghost use Rattle.file_model.specs.Fileable.{reading_of};
ghost use Rattle.file_model.specs.Reading.{IsImageOf, IsKernelOf};
ghost use Rattle.file_model.specs.Written.{file_of};
ghost use Rattle.file_rereading.specs.Rereading.{IsWithinLimits, with_heads};
ghost use Rattle.history_model.specs.Rules.{Asks};
ghost use Rattle.command_model.specs.Beside.{HasOneMore};
ghost use Rattle.kept_runs.specs.KeepsRuns.{IsSound, AllKeepRuns, IsKept};
ghost use Rattle.ruled_model.specs.RuledScripts.{Line, History, ruled_verdict, AdmitsRuled};
ghost use Rattle.ruled_laws.specs.SpelledRequests.{IsSpelledAsked};

use bare_model::law_bare_runs;
use code_effect_laws::law_code_effect_valid;
use file_out_laws::law_matched_commands;
use kernel_image::{every_image_is_read_again, every_image_is_valid};
use let_laws::law_inlined_temporary_images;
use moved_code_laws::{
    law_abstracted_images, law_accessor_names, law_extracted_images, law_inlined_images,
};
use ruled_laws::{law_ruled_admitted, law_ruled_history};

/// Each command keeps runs, whether it moves code or not, where the text of a method that it adds spells it and may stand as a
/// chunk, some text spells a literal that it lets messages pass, and a setter has the names that belong to its variable. Where
/// none of its conditions is false in a valid image behind the kernel, the image after is valid, can be written where the image
/// before can, has the kernel first where that has, and is matched by it up to what the command renames.
pub fn law_effect()
    ensures { (kernel : ImageOf Name) → IsKernelOf Second prelude_text kernel → AllKeepRuns kernel }
{
    law_matched_commands();
    law_code_effect_valid();
    law_abstracted_images();
    law_accessor_names();
    law_extracted_images();
    law_inlined_images();
    let_laws::law_extracted_images();
    law_inlined_temporary_images();
}

/// So does each script that is accepted, rules with certificates, composites, undo and redo among its lines: the image after all
/// lines is valid, can be written where the image before can, and is matched by it up to what the script renames. The same holds
/// with each start expression that the script admits as one more do-it, up to the same renaming.
pub fn law_scripts()
    ensures kept { (kernel i : ImageOf Name) (script : List Line) (h : History) → IsKernelOf Second prelude_text kernel → IsSound kernel i →
        AllByRecursion (Asks IsSpelledAsked) script → ruled_verdict i script ≡ Ok h → IsKept kernel i h.now }
    ensures admitted { (kernel i : ImageOf Name) (script : List Line) (h : History) (e : DoItOf Name) → IsKernelOf Second prelude_text kernel → IsSound kernel i →
        AllByRecursion (Asks IsSpelledAsked) script → ruled_verdict i script ≡ Ok h → (a : AdmitsRuled i script e) →
        HasOneMore h.now.image a.history.now.image × (a.history.now.renaming ≡ h.now.renaming)
        × AreMatched (plus i e) a.history.now.image h.now.renaming }
{
    law_effect();
    law_ruled_history();
    law_ruled_admitted();
}

/// So does each such script in the image of each file-out. The image after is valid behind the kernel of that file-out. Within
/// the limits of a file its text is read again as that image, with the do-its at its head counted anew; that image too is matched
/// by the one before up to what the script renames, also with each start expression that the script admits.
pub fn law_script_files()
    ensures valid { (text : Name) (i : ImageOf Name) (script : List Line) (h : History) → (is : IsImageOf Second prelude_text text i) →
        AllByRecursion (Asks IsSpelledAsked) script → ruled_verdict i script ≡ Ok h → IsValid text_words (reading_of Second is.kernel) h.now.image }
    ensures read_again { (text : Name) (i : ImageOf Name) (script : List Line) (h : History) → IsImageOf Second prelude_text text i →
        AllByRecursion (Asks IsSpelledAsked) script → ruled_verdict i script ≡ Ok h → IsWithinLimits h.now.image →
        IsImageOf Second prelude_text (file_of h.now.image) (with_heads h.now.image) }
    ensures matched { (text : Name) (i : ImageOf Name) (script : List Line) (h : History) → IsImageOf Second prelude_text text i →
        AllByRecursion (Asks IsSpelledAsked) script → ruled_verdict i script ≡ Ok h → AreMatched i h.now.image h.now.renaming }
    ensures runs_again { (text : Name) (i : ImageOf Name) (script : List Line) (h : History) → IsImageOf Second prelude_text text i →
        AllByRecursion (Asks IsSpelledAsked) script → ruled_verdict i script ≡ Ok h → AreMatched i (with_heads h.now.image) h.now.renaming }
    ensures admitted { (text : Name) (i : ImageOf Name) (script : List Line) (h : History) (e : DoItOf Name) → IsImageOf Second prelude_text text i →
        AllByRecursion (Asks IsSpelledAsked) script → ruled_verdict i script ≡ Ok h → (a : AdmitsRuled i script e) →
        (last : DoItOf Name) × (a.history.now.image ≡ plus h.now.image last) × (a.history.now.renaming ≡ h.now.renaming)
        × AreMatched (plus i e) (plus h.now.image last) h.now.renaming × AreMatched (plus i e) (plus (with_heads h.now.image) last) h.now.renaming }
{
    law_scripts();
    law_bare_runs();
    every_image_is_valid();
    every_image_is_read_again();
}
