// Whether a name in code means what is asked for.
ghost use Rattle.std.specs.Prelude.{◌≡◌, IfOk};
ghost use Rattle.st_tree.specs.View.{sequence_of};
ghost use Rattle.name_meanings.specs.Meanings.{meaning_of};
ghost use Rattle.use_questions.specs.Questions.{is_meant, in_code};

use crate::question::Meant;
use name_meanings::{Meaning, is_among};
use rb_base::{Ids, Memory, Names};
use st_scope::free_names_doit;
use st_tree::{Part, Path, Sequence};
use std::alloc::Global;

/// Whether a meaning is what is asked for.
pub fn is_meant(what: &Meant, meaning: Meaning) -> bool
    ensures { result ≡ is_meant what.now (meaning_of meaning) }
{
    match what {
        Meant::Class(class) => meaning == Meaning::Class(*class),
        Meant::Variable { kind, class, .. } => {
            let variable = Meaning::Variable {
                kind: *kind,
                definer: *class,
            };
            meaning == variable
        }
    }
}

/// Whether a name in a body means what is asked for, where outside all blocks the name has this meaning: it has the same
/// meaning wherever no block declares it.
pub(crate) fn in_code(
    alloc: Global,
    names: &Names,
    what: &Meant,
    outside: Meaning,
    body: &Sequence,
) -> Result<bool, Memory>
    ensures { IfOk result (λ is. is ≡ in_code names.now what.now (meaning_of outside) (sequence_of body.now)) }
{
    if !is_meant(what, outside) {
        return Ok(false);
    }
    let whole = Part::Run {
        path: Path::new(alloc),
        first: 0,
        count: body.statements.len(),
    };
    let mut free = Ids::new(alloc);
    free_names_doit(alloc, body, &whole, names, &mut free)?;
    Ok(is_among(free.as_slice(), what.name()))
}
