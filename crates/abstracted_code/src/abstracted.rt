// Code in which the variable is read and assigned by messages.
ghost use Rattle.std.specs.Prelude.{◌≡◌, [], false, option_map, IfOk};
ghost use Rattle.class_table.specs.Valid.{IsLive, IsOrderly};
ghost use Rattle.class_table.specs.View.{class_name};
ghost use Rattle.st_tree.specs.View.{method_of, sequence_of};
ghost use Rattle.abstracted_code.specs.Abstracted.{method_after, body_after};

use crate::abstracting::{Abstracting, Code};
use crate::abstraction::Abstraction;
use class_table::{ClassId, Image};
use name_meanings::{doit_meaning, method_meaning};
use rb_base::Memory;
use remade_code::{remake_doit, remake_method};
use st_tree::{Method, Path, Sequence, try_copy, try_copy_doit};
use std::alloc::Global;

/// The method of a class and a side in which the variable is read and assigned by messages, if the method means it. It need not
/// be one of the image. Want of memory, if there is not enough of it for a copy.
pub fn abstracted_method(
    alloc: Global,
    image: &Image,
    class: ClassId,
    meta: bool,
    tree: &Method,
    abstraction: &Abstraction,
) -> Result<Option<Method>, Memory>
    requires orderly { IsOrderly image.now }
    requires live { IsLive image.now.class_order class }
    ensures { IfOk result (λ found. option_map method_of found ≡ method_after image.now abstraction.now (record { class = class_name image.now.classes class; meta = meta; protocol = []; source = []; tree = method_of tree.now; kernel = false })) }
{
    let top = Path::new(alloc);
    let outside = method_meaning(image, class, meta, tree, &top, abstraction.variable);
    if !abstraction.is_meant(outside) {
        return Ok(None);
    }
    let work = Abstracting {
        abstraction: *abstraction,
        names: image.names(),
        code: Code::Method(tree),
    };
    let used = work.is_used(alloc, &tree.body)?;
    if !used {
        return Ok(None);
    }
    let mut after = try_copy(alloc, tree)?;
    remake_method(alloc, &work, &mut after)?;
    Ok(Some(after))
}

/// The do-it in which the variable is read and assigned by messages, if the do-it means it. Want of memory, if there is not
/// enough of it for a copy.
pub fn abstracted_doit(
    alloc: Global,
    image: &Image,
    body: &Sequence,
    abstraction: &Abstraction,
) -> Result<Option<Sequence>, Memory>
    requires { IsOrderly image.now }
    ensures { IfOk result (λ found. option_map sequence_of found ≡ body_after image.now abstraction.now (sequence_of body.now)) }
{
    let top = Path::new(alloc);
    let outside = doit_meaning(image, body, &top, abstraction.variable);
    if !abstraction.is_meant(outside) {
        return Ok(None);
    }
    let work = Abstracting {
        abstraction: *abstraction,
        names: image.names(),
        code: Code::DoIt(body),
    };
    let used = work.is_used(alloc, body)?;
    if !used {
        return Ok(None);
    }
    let mut after = try_copy_doit(alloc, body)?;
    remake_doit(alloc, &work, &mut after)?;
    Ok(Some(after))
}
