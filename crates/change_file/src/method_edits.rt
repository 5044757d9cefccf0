// The edits of methods.
ghost use Rattle.std.specs.Prelude.{◌≡◌, ◌++◌, ◌&&◌, not, codes, map, flat_map, ℕ, List, IfOk, OnOk};
ghost use Rattle.std.specs.Fmt.{decimal};
ghost use Rattle.rb_base.specs.Names.{text_eq};
ghost use Rattle.text_model.specs.Literals.{quoted_text};
ghost use Rattle.class_table.specs.View.{image_of};
ghost use Rattle.class_table.specs.Valid.{IsOrderly};
ghost use Rattle.file_model.specs.Hierarchy.{has_class};
ghost use Rattle.file_model.specs.Written.{side_text};
ghost use Rattle.image_file.specs.Runs.{run_text};
ghost use Rattle.change_model.specs.Edits.{method_removals, method_filings};
ghost use Rattle.change_file.specs.Partners.{is_listed};
ghost use Rattle.change_file.specs.Shown.{IsToldApart, AreMethods, shown_method, key_shown, placed_method};
ghost use Rattle.change_file.specs.Texts.{edit_texts, removal_text, put_text};

use crate::classes::all_names;
use crate::methods::{Methods, PlacedMethod, SignedMethod, differing_methods, key_of, methods_of};
use crate::pieces::push_number;
use class_table::Image;
use image_file::{run_source, write_ended_chunk, write_paragraph, write_side};
use rb_base::{Memory, Names, Text};
use std::alloc::Global;

/// The removal of a method.
fn removal_source(alloc: Global, item: &SignedMethod<'_>) -> Result<Text, Memory>
    ensures { IfOk result (λ source. source ≡ removal_text (shown_method item.now)) }
{
    let mut source = Text::new(alloc);
    write_side(&item.method, &mut source)?;
    source.push_slice(b" removeSelector: #")?;
    source.push_slice(item.selector)?;
    Ok(source)
}

/// Whether a method goes while its class stays.
fn is_removed(
    alloc: Global,
    item: &SignedMethod<'_>,
    keys: &Names,
    classes: &Names,
) -> Result<bool, Memory>
    ensures { IfOk result (λ removed. removed ≡ (not (is_listed keys.now (key_shown (shown_method item.now))) && is_listed classes.now item.now.method.class.now)) }
{
    let key = key_of(alloc, item)?;
    Ok(keys.find(key.as_slice()).is_none() && classes.find(item.method.class).is_some())
}

/// Appends the removals of the methods that the new image has not while it has their classes.
fn write_removals(
    alloc: Global,
    old: &Methods<'_>,
    new: &Methods<'_>,
    classes: &Names,
    out: &mut Text,
) -> Result<(), Memory>
    requires old { AreMethods old.now }
    requires new { AreMethods new.now }
    requires classes { (name : List ℕ) → is_listed classes.now name ≡ has_class text_eq (image_of new.now.image.now).classes name }
    ensures { OnOk result (out.new ≡ out.old ++ edit_texts (method_removals (image_of old.now.image.now) (image_of new.now.image.now))) }
{
    for item in &old.items {
        if is_removed(alloc, item, &new.keys, classes)? {
            let source = removal_source(alloc, item)?;
            write_paragraph(alloc, source.as_slice(), out)?;
        }
    }
    Ok(())
}

/// The message by which a run begins that states a place.
fn placed_source(alloc: Global, placed: &PlacedMethod<'_>) -> Result<Text, Memory>
    ensures { IfOk result (λ source. source ≡ side_text (run_text placed.now.item.method) ++ codes " methodsFor: " ++ quoted_text placed.now.item.method.protocol.now ++ codes " at: " ++ decimal placed.now.place) }
{
    let mut source = run_source(alloc, &placed.item.method)?;
    source.push_slice(b" at: ")?;
    push_number(alloc, placed.place, &mut source)?;
    Ok(source)
}

/// Appends a method in a run of its own that states its place.
fn write_put(alloc: Global, placed: &PlacedMethod<'_>, out: &mut Text) -> Result<(), Memory>
    ensures { OnOk result (out.new ≡ out.old ++ put_text (placed_method placed.now)) }
{
    let opening = placed_source(alloc, placed)?;
    out.push_slice(b"!")?;
    write_ended_chunk(alloc, opening.as_slice(), out)?;
    out.push_slice(b"\n")?;
    write_ended_chunk(alloc, placed.item.method.source, out)?;
    out.push_slice(b" !\n\n")
}

/// Appends methods at their places.
fn write_filings(
    alloc: Global,
    differing: &[PlacedMethod<'_>],
    out: &mut Text,
) -> Result<(), Memory>
    ensures { OnOk result (out.new ≡ out.old ++ flat_map put_text (map placed_method differing.now)) }
{
    for placed in differing {
        write_put(alloc, placed, out)?;
    }
    Ok(())
}

/// Appends the edits of methods.
pub(crate) fn write_method_edits(
    alloc: Global,
    old: &Image,
    new: &Image,
    out: &mut Text,
) -> Result<(), Memory>
    requires old { IsOrderly old.now }
    requires new { IsOrderly new.now }
    requires old_apart { IsToldApart (image_of old.now) }
    requires new_apart { IsToldApart (image_of new.now) }
    ensures { OnOk result (out.new ≡ out.old ++ edit_texts (method_removals (image_of old.now) (image_of new.now)) ++ edit_texts (method_filings (image_of old.now) (image_of new.now))) }
{
    let before = methods_of(alloc, old)?;
    let after = methods_of(alloc, new)?;
    let classes = all_names(alloc, new)?;
    write_removals(alloc, &before, &after, &classes, out)?;
    let come = differing_methods(alloc, &after, &before)?;
    write_filings(alloc, come.as_slice(), out)
}
