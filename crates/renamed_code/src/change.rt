// The change of the code at a place.
ghost use Rattle.std.specs.Prelude.{◌≡◌, ◌<◌, ◌≤◌, ◌+◌, length, option_map, IfOk};
ghost use Rattle.rb_base.specs.Names.{name_at};
ghost use Rattle.tree_model.specs.Tree.{map_sequence, map_method};
ghost use Rattle.tree_model.specs.AllNames.{SequenceNames, MethodNames};
ghost use Rattle.st_tree.specs.View.{method_of, sequence_of};
ghost use Rattle.text_model.specs.Whole.{canonical_method, canonical_doit};
ghost use Rattle.class_table.specs.declared.record.Place.TheVariants as places;
ghost use Rattle.class_table.specs.Valid.{IsOrderly};
ghost use Rattle.change_set.specs.declared.change.Change.TheVariants as changes;
ghost use Rattle.renamed_code.specs.ChangedCode.{renamed_of, change_at};

use crate::anew::{renamed_body, renamed_method};
use crate::renamed::Renamed;
use crate::renaming::{Code, Renaming};
use crate::uses::{may_stand_in, may_stand_in_method};
use change_set::Change;
use class_table::{DoIt, Image, MethodInfo, MethodRec, MethodSlot, Place};
use rb_base::{Memory, NameId, Steps, Text};
use st_formatter::{format_doit, format_method};
use st_tree::{Method, Sequence};
use std::alloc::Global;
use std::sync::ledger::Ledger;

/// What is kept of a method with a tree made anew: the source is the tree's canonical text.
fn method_rec(
    alloc: Global,
    image: &Image,
    info: &MethodInfo<'_>,
    tree: Method,
) -> Result<MethodRec, Memory>
    requires { MethodNames (λ n. n < length image.now.names) (method_of tree) }
    ensures { let source = canonical_method (map_method (name_at image.now.names) (method_of tree)) in
        IfOk result (λ rec. rec ≡ record { class = info.now.class; meta = info.now.meta; protocol = info.now.protocol.now; source = source; tree = tree; kernel = info.now.kernel }) }
{
    let mut source = Text::new(alloc);
    format_method(alloc, &tree, image.names(), &mut source)?;
    Ok(MethodRec {
        class: info.class,
        meta: info.meta,
        protocol: Text::from_slice(alloc, info.protocol)?,
        source,
        tree,
        kernel: info.kernel,
    })
}

/// The method in a slot after, if its code speaks of what is renamed. Opens the code once.
fn method_after<L: Ledger>(
    alloc: Global,
    image: &Image,
    slot: MethodSlot,
    what: Renamed,
    to: NameId,
    steps: &mut Steps<L>,
) -> Result<Option<MethodRec>, Memory>
    requires orderly { IsOrderly image.now }
    requires known { to < length image.now.names }
    ensures change { IfOk result (λ found. option_map (changes.Method slot) found ≡ change_at image.now (renamed_of what) to (places.Method slot)) }
    ensures steps { steps.new ≤ steps.old + 1 }
{
    let Some(info) = image.method_info(slot) else {
        return Ok(None);
    };
    let Some(tree) = image.open_body(slot, steps) else {
        return Ok(None);
    };
    let may = may_stand_in_method(alloc, &what, tree)?;
    if !may {
        return Ok(None);
    }
    let code = Code::Method {
        class: info.class,
        meta: info.meta,
        tree,
    };
    let renaming = Renaming {
        image,
        code,
        what,
        to,
    };
    match renamed_method(alloc, &renaming, tree)? {
        None => Ok(None),
        Some(after) => Ok(Some(method_rec(alloc, image, &info, after)?)),
    }
}

/// What is kept of a do-it with a body made anew: the source is the body's canonical text.
fn doit_rec(alloc: Global, image: &Image, body: Sequence) -> Result<DoIt, Memory>
    requires { SequenceNames (λ n. n < length image.now.names) (sequence_of body) }
    ensures { let source = canonical_doit (map_sequence (name_at image.now.names) (sequence_of body)) in
        IfOk result (λ doit. doit ≡ record { source = source; body = body }) }
{
    let mut source = Text::new(alloc);
    format_doit(alloc, &body, image.names(), &mut source)?;
    Ok(DoIt { source, body })
}

/// The do-it of a number after, if its code speaks of what is renamed. Opens the code once.
fn doit_after<L: Ledger>(
    alloc: Global,
    image: &Image,
    number: usize,
    what: Renamed,
    to: NameId,
    steps: &mut Steps<L>,
) -> Result<Option<DoIt>, Memory>
    requires orderly { IsOrderly image.now }
    requires known { to < length image.now.names }
    ensures change { IfOk result (λ found. option_map (changes.DoIt number) found ≡ change_at image.now (renamed_of what) to (places.DoIt number)) }
    ensures steps { steps.new ≤ steps.old + 1 }
{
    let Some(body) = image.open_doit(number, steps) else {
        return Ok(None);
    };
    let may = may_stand_in(alloc, &what, body)?;
    if !may {
        return Ok(None);
    }
    let code = Code::DoIt { body };
    let renaming = Renaming {
        image,
        code,
        what,
        to,
    };
    match renamed_body(alloc, &renaming, body)? {
        None => Ok(None),
        Some(after) => Ok(Some(doit_rec(alloc, image, after)?)),
    }
}

/// The change of the code at a place by which what is renamed has its new name there, if the code speaks of it. The source of
/// changed code is its canonical text. Opens the code once.
pub fn code_change<L: Ledger>(
    alloc: Global,
    image: &Image,
    place: Place,
    what: Renamed,
    to: NameId,
    steps: &mut Steps<L>,
) -> Result<Option<Change>, Memory>
    requires orderly { IsOrderly image.now }
    requires known { to < length image.now.names }
    ensures change { IfOk result (λ found. found ≡ change_at image.now (renamed_of what) to place) }
    ensures steps { steps.new ≤ steps.old + 1 }
{
    match place {
        Place::Method(slot) => match method_after(alloc, image, slot, what, to, steps) {
            Ok(Some(rec)) => Ok(Some(Change::Method { slot, rec })),
            Ok(None) => Ok(None),
            Err(memory) => Err(memory),
        },
        Place::DoIt(number) => match doit_after(alloc, image, number, what, to, steps) {
            Ok(Some(doit)) => Ok(Some(Change::DoIt { number, doit })),
            Ok(None) => Ok(None),
            Err(memory) => Err(memory),
        },
    }
}
