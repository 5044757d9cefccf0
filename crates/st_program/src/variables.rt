// Classes that define variables.
ghost use Rattle.std.specs.Prelude.{◌≡◌, map};
ghost use Rattle.std.specs.List.{list_any};
ghost use Rattle.rb_base.specs.Names.{text_eq, name_at};
ghost use Rattle.st_program.specs.Definers.{defined};

use crate::meaning::Kind;
use class_table::ClassRec;
use rb_base::Ids;
use st_meaning::{SharedNames, same_text};

/// The variables of a kind that a class itself defines.
pub(crate) fn variables(rec: &ClassRec, kind: Kind) -> &Ids
    ensures { result.now ≡ defined kind rec.now }
{
    match kind {
        Kind::Instance => &rec.instance,
        Kind::ClassSide => &rec.class_side,
        Kind::Shared => &rec.shared,
    }
}

/// Whether one of the names has the text.
pub(crate) fn is_among(names: &SharedNames, ids: &Ids, text: &[u8]) -> bool
    ensures { result ≡ list_any (text_eq text.now) (map (name_at names.now) ids.now) }
{
    for id in ids.as_slice() {
        if same_text(text, names.as_slice(*id)) {
            return true;
        }
    }
    false
}
