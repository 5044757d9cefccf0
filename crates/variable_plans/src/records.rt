// The record of a class that a variable leaves, or to which it comes.
ghost use Rattle.std.specs.Prelude.{◌≡◌, IfOk, OnOk};
ghost use Rattle.variable_plans.specs.Records as records;

use crate::record_copy::copied;
use crate::route::{Route, is_among};
use class_table::{ClassId, ClassRec, Image};
use name_meanings::{VariableKind, defines};
use rb_base::{Ids, Memory, NameId};
use std::alloc::Global;

/// The variables without one that leaves, and then with that one as the last where it comes.
fn moved_names(
    alloc: Global,
    names: &Ids,
    variable: NameId,
    leaves: bool,
    enters: bool,
) -> Result<Ids, Memory>
    ensures { IfOk result (λ found. found ≡ records.moved_names leaves enters variable names.now) }
{
    let mut found = Ids::new(alloc);
    for name in names.as_slice() {
        if !(leaves && variable == *name) {
            found.push(*name)?;
        }
    }
    if enters {
        found.push(variable)?;
    }
    Ok(found)
}

/// Lets the variable leave the record, and then come to it.
fn move_variable(
    alloc: Global,
    rec: &mut ClassRec,
    route: &Route,
    leaves: bool,
    enters: bool,
) -> Result<(), Memory>
    ensures { OnOk result (rec.new ≡ records.record_after route.now leaves enters rec.old) }
{
    let variable = route.variable;
    match route.kind {
        VariableKind::Instance => {
            rec.instance = moved_names(alloc, &rec.instance, variable, leaves, enters)?;
        }
        VariableKind::ClassSide => {
            rec.class_side = moved_names(alloc, &rec.class_side, variable, leaves, enters)?;
        }
        VariableKind::Shared => {
            rec.shared = moved_names(alloc, &rec.shared, variable, leaves, enters)?;
        }
    }
    Ok(())
}

/// The other record of the class in a slot, if the variable leaves the class or comes to it.
pub fn given_record(
    alloc: Global,
    image: &Image,
    id: ClassId,
    route: &Route,
) -> Result<Option<ClassRec>, Memory>
    ensures { IfOk result (λ given. given ≡ records.record_given image.now route.now id) }
{
    let Some(rec) = image.class_rec(id) else {
        return Ok(None);
    };
    let leaves = is_among(image, rec, &route.leaves) && defines(rec, route.kind, route.variable);
    let enters = is_among(image, rec, &route.enters);
    if !leaves && !enters {
        return Ok(None);
    }
    let mut rec = copied(alloc, rec)?;
    move_variable(alloc, &mut rec, route, leaves, enters)?;
    Ok(Some(rec))
}
