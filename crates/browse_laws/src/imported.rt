// The law of `import`. The function does nothing; its contract is the law.
ghost use Rattle.std.specs.Prelude.{ℕ, List};
ghost use Rattle.image_forms.specs.declared.status.Status.TheVariants as status;
ghost use Rattle.image_forms.specs.Loads.{World};
ghost use Rattle.image_forms.specs.Answers.{Answers};
ghost use Rattle.browse_laws.specs.Given.{import_words, IsGiven};
ghost use Rattle.browse_laws.specs.Printed.{IsImportedFile};

use import_laws::{imports_once, leaves_to_the_reader};
use import_model::{has_one_import, keeps_file_outs};

/// If `import FILE` is answered with the status `Done`, what is sent is what the file becomes: the file itself, if the other forms
/// read it. `import` answers the sent text with the text itself. If the other forms refuse the sent text, they refuse a chunk for
/// the classes and methods that are there, one in a run of methods that spells no method, or one that replaces a do-it.
pub fn law_imported()
    ensures { (w : World) (file sent : List ℕ) → Answers w (import_words file) status.Done sent →
        IsGiven w file (λ text. IsImportedFile text sent) }
{
    has_one_import();
    keeps_file_outs();
    imports_once();
    leaves_to_the_reader();
}
