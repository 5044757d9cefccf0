// The law of all forms. The function does nothing; its contract is the law.
ghost use Rattle.std.specs.Prelude.{ℕ, List};
ghost use Rattle.image_forms.specs.declared.status.Status.{Status};
ghost use Rattle.image_forms.specs.Loads.{World};
ghost use Rattle.image_forms.specs.Answers.{Answers};
ghost use Rattle.browse_laws.specs.Promises.{KeepsPromises};

use crate::changed::law_filed_in;
use crate::explained::law_told_why;
use crate::imported::law_imported;
use crate::laws::{law_applied, law_undone};
use crate::played::law_played;
use crate::printed::{law_formatted, law_stripped};
use strip_model::law_reach_is_least;

/// Whatever the words, what answers them keeps what is promised of their form: `apply` prints the changed file, which is valid, is
/// read again and runs as before, or names the first condition that is false, and takes back what `undo` asks for; `changes` prints
/// what makes the old file the new one; `why` explains the first condition that is false; `team` prints the replies and the file of the image at the end; `strip` and `format` print
/// files that run as before, and `sets` the lines of the least closed sets; `import` leaves a file that is read as it is, and what
/// it prints is refused for few causes.
pub fn law_promises_kept()
    ensures { (w : World) (words : List (List ℕ)) (s : Status) (sent : List ℕ) → Answers w words s sent → KeepsPromises w words s sent }
{
    law_applied();
    law_undone();
    law_filed_in();
    law_told_why();
    law_played();
    law_stripped();
    law_formatted();
    law_imported();
    law_reach_is_least();
}
