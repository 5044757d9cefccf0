// New names one after the other as one map.
ghost use Rattle.std.specs.Prelude.{◌≡◌, IfOk};
ghost use Rattle.new_names.specs.NewNames.{called_after, map_of};

use rb_base::{Memory, NameId};
use std::alloc::Global;

/// What is called `from` is called `to` afterwards.
#[derive(Clone, Copy, Debug)]
pub struct NewName {
    pub from: NameId,
    pub to: NameId,
}

/// What has the name is called so after all.
fn called_after(names: &[NewName], name: NameId) -> NameId
    ensures { result ≡ called_after names.now name }
{
    let mut called = name;
    for new in names {
        if called == new.from {
            called = new.to;
        }
    }
    called
}

/// Each name that is replaced, with what had it first is called after all.
pub fn composed(alloc: Global, names: &[NewName]) -> Result<Vec<NewName>, Memory>
    ensures { IfOk result (λ found. found.items ≡ map_of names.now) }
{
    let mut found = Vec::new(alloc);
    for new in names {
        found.push(NewName {
            from: new.from,
            to: called_after(names, new.from),
        })?;
    }
    Ok(found)
}
