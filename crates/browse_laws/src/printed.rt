// Laws of `strip` and `format`. Each function does nothing; its contract is the law.
ghost use Rattle.std.specs.Prelude.{◌≡◌, ℕ, List, false};
ghost use Rattle.token_model.specs.declared.kind.Dialect.TheVariants.{Second};
ghost use Rattle.st_kernel.specs.KernelText.{prelude_text};
ghost use Rattle.image_model.specs.Image.{ImageOf};
ghost use Rattle.file_model.specs.Reading.{IsImageOf};
ghost use Rattle.format_laws.specs.Empty.{HasNoEmptyDoIt};
ghost use Rattle.image_forms.specs.declared.status.Status.{Status};
ghost use Rattle.image_forms.specs.declared.status.Status.TheVariants as status;
ghost use Rattle.image_forms.specs.Loads.{World};
ghost use Rattle.image_forms.specs.Answers.{Formats, Runs, Strips, Answers};
ghost use Rattle.browse_laws.specs.Given.{strip_words, format_words, IsGiven};
ghost use Rattle.browse_laws.specs.Printed.{IsStrippedFile, IsFormattedFile};

use file_model::has_one_image;
use file_out_laws::law_stripped_files;
use format_laws::{law_formatted_files, law_formatted_images};
use grammar_model::spells_doit_or_has_fault;
use strip_model::law_reach_is_least;

/// Where `strip IMAGE EXPRESSION` is answered with the status `Done`, what is sent is the file of the image without what it does
/// not reach with the expression as its last do-it; it has the same runs with that do-it, and so has the image that the sent
/// text makes when it is read again. So `run` answers the sent text, with that expression and any number of ticks, as it answers
/// the first text, with the same status and the same bytes.
pub fn law_stripped()
    ensures done { (w : World) (image expression sent : List ℕ) → Answers w (strip_words image expression) status.Done sent →
        IsGiven w image (λ text. IsStrippedFile text expression sent) }
    ensures run { (text expression printed : List ℕ) (budget : ℕ) (s : Status) (sent : List ℕ) →
        Strips text expression false status.Done printed → Runs text expression budget s sent → Runs printed expression budget s sent }
{
    law_stripped_files();
    law_reach_is_least();
    has_one_image();
    spells_doit_or_has_fault();
}

/// Where `format IMAGE` is answered with the status `Done`, what is sent is the file of the image with canonical text in place of
/// its sources, which has the same runs. If no do-it is empty, without temporaries, statements and comments, so has the image
/// that the sent text makes when it is read again, and `format` answers that text with the text itself; and `run` answers it, with
/// any expression and any number of ticks, as it answers the first text.
pub fn law_formatted()
    ensures done { (w : World) (image sent : List ℕ) → Answers w (format_words image) status.Done sent →
        IsGiven w image (λ text. IsFormattedFile text sent) }
    ensures run { (text printed expression : List ℕ) (i : ImageOf (List ℕ)) (budget : ℕ) (s : Status) (sent : List ℕ) →
        IsImageOf Second prelude_text text i → HasNoEmptyDoIt i → Formats text status.Done printed →
        Runs text expression budget s sent → Runs printed expression budget s sent }
{
    law_formatted_images();
    law_formatted_files();
    has_one_image();
}
