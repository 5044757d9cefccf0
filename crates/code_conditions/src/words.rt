// The name `self`.
ghost use Rattle.std.specs.Prelude.{◌≡◌};
ghost use Rattle.commands.specs.Views.{self_in};

use rb_base::{NameId, Names};

/// The name `self`, or that of the number 0, if the table has no `self`.
pub fn self_name(names: &Names) -> NameId
    ensures { result ≡ self_in names.now }
{
    match names.find(b"self") {
        Some(name) => name,
        None => NameId(0),
    }
}
