// The edits of classes.
ghost use Rattle.std.specs.Prelude.{◌≡◌, ◌++◌, ◌∷◌, [], map, flat_map, IfOk, OnOk};
ghost use Rattle.std.specs.List.{AllByRecursion};
ghost use Rattle.class_table.specs.View.{image_of};
ghost use Rattle.class_table.specs.Valid.{IsOrderly};
ghost use Rattle.file_model.specs.Changes.{Define, DefineAt, SetClassSide, RemoveClass};
ghost use Rattle.file_model.specs.Written.{paragraph_unless_empty, class_side_text};
ghost use Rattle.image_file.specs.Writable.{IsWritableClass, text_class};
ghost use Rattle.change_model.specs.Edits.{Change, bare_definition, definition_of, filed, clearings, class_removals, class_filings};
ghost use Rattle.change_model.specs.Text.{change_source};
ghost use Rattle.change_file.specs.Shown.{IsToldApart, AreClasses, AreOtherClasses, placed_class};
ghost use Rattle.change_file.specs.Texts.{edit_texts};

use crate::classes::{Classes, PlacedClass, classes_of, differing_classes};
use crate::pieces::push_number;
use class_table::Image;
use image_file::{
    class_side_source, comment_source, definition_source, write_paragraph, write_string,
};
use rb_base::{Memory, Text};
use std::alloc::Global;

/// The definition of a class under `Object` and without variables.
fn bare_source(alloc: Global, name: &[u8], category: &[u8]) -> Result<Text, Memory>
    ensures { IfOk result (λ source. source ≡ change_source (Define (bare_definition name.now category.now))) }
{
    let mut source = Text::new(alloc);
    source.push_slice(b"Object subclass: #")?;
    source.push_slice(name)?;
    source.push_slice(
        b"\n\tinstanceVariableNames: ''\n\tclassVariableNames: ''\n\tpoolDictionaries: ''\n\tcategory: ",
    )?;
    write_string(category, &mut source)?;
    Ok(source)
}

/// The change of a class to one without class-instance variables.
fn bare_side_source(alloc: Global, name: &[u8]) -> Result<Text, Memory>
    ensures { IfOk result (λ source. source ≡ change_source (SetClassSide name.now [])) }
{
    let mut source = Text::from_slice(alloc, name)?;
    source.push_slice(b" class instanceVariableNames: ''")?;
    Ok(source)
}

/// Appends the chunks by which a class that differs and stays is left without variables under `Object`.
fn write_cleared(alloc: Global, name: &[u8], category: &[u8], out: &mut Text) -> Result<(), Memory>
    ensures { OnOk result (out.new ≡ out.old ++ edit_texts (Change (Define (bare_definition name.now category.now)) ∷ Change (SetClassSide name.now []) ∷ [])) }
{
    let definition = bare_source(alloc, name, category)?;
    write_paragraph(alloc, definition.as_slice(), out)?;
    let side = bare_side_source(alloc, name)?;
    write_paragraph(alloc, side.as_slice(), out)
}

/// Appends these chunks for each of the classes that the new image has too.
fn write_clearings(
    alloc: Global,
    old: &Classes<'_>,
    differing: &[PlacedClass<'_>],
    new: &Classes<'_>,
    out: &mut Text,
) -> Result<(), Memory>
    requires others { AreOtherClasses old.now.image.now new.now.image.now differing.now }
    requires new { AreClasses new.now }
    requires apart { IsToldApart (image_of new.now.image.now) }
    ensures { OnOk result (out.new ≡ out.old ++ edit_texts (clearings (image_of old.now.image.now) (image_of new.now.image.now))) }
{
    for class in differing {
        let name = old.image.names().text_of(class.rec.name);
        if let Some(number) = new.names.find(name) {
            if let Some(later) = new.recs.get(number.0) {
                write_cleared(alloc, name, later.category.as_slice(), out)?;
            }
        }
    }
    Ok(())
}

/// The removal of a class.
fn removal_source(alloc: Global, name: &[u8]) -> Result<Text, Memory>
    ensures { IfOk result (λ source. source ≡ change_source (RemoveClass name.now)) }
{
    let mut source = Text::new(alloc);
    source.push_slice(b"Smalltalk removeClassNamed: #")?;
    source.push_slice(name)?;
    Ok(source)
}

/// Appends the removals of the classes that the new image has not, the last one first.
fn write_removals(
    alloc: Global,
    old: &Classes<'_>,
    new: &Classes<'_>,
    out: &mut Text,
) -> Result<(), Memory>
    requires old { AreClasses old.now }
    requires new { AreClasses new.now }
    ensures { OnOk result (out.new ≡ out.old ++ edit_texts (class_removals (image_of old.now.image.now) (image_of new.now.image.now))) }
{
    let mut left = old.recs.len();
    while left > 0 {
        left -= 1;
        let name = old.image.names().text_of(old.recs[left].name);
        if new.names.find(name).is_none() {
            let source = removal_source(alloc, name)?;
            write_paragraph(alloc, source.as_slice(), out)?;
        }
    }
    Ok(())
}

/// The definition of a class at its place.
fn placed_source(alloc: Global, image: &Image, class: &PlacedClass<'_>) -> Result<Text, Memory>
    requires { IsWritableClass image.now class.now.rec.now }
    ensures { IfOk result (λ source. source ≡ change_source (DefineAt (definition_of (text_class image.now class.now.rec.now)) class.now.place)) }
{
    let mut source = definition_source(alloc, image, class.rec)?;
    source.push_slice(b"\n\tat: ")?;
    push_number(alloc, class.place, &mut source)?;
    Ok(source)
}

/// Appends the chunk of the class-instance variables of a class, if it has some.
fn write_side(
    alloc: Global,
    image: &Image,
    class: &PlacedClass<'_>,
    out: &mut Text,
) -> Result<(), Memory>
    requires { IsWritableClass image.now class.now.rec.now }
    ensures { OnOk result (out.new ≡ out.old ++ paragraph_unless_empty (text_class image.now class.now.rec.now).class_side (class_side_text (text_class image.now class.now.rec.now))) }
{
    if class.rec.class_side.is_empty() {
        return Ok(());
    }
    let source = class_side_source(alloc, image, class.rec)?;
    write_paragraph(alloc, source.as_slice(), out)
}

/// Appends a class at its place: its definition, its class-instance variables and its comment.
fn write_filed(
    alloc: Global,
    image: &Image,
    class: &PlacedClass<'_>,
    out: &mut Text,
) -> Result<(), Memory>
    requires { IsWritableClass image.now class.now.rec.now }
    ensures { OnOk result (out.new ≡ out.old ++ edit_texts (filed (placed_class image.now class.now))) }
{
    let definition = placed_source(alloc, image, class)?;
    write_paragraph(alloc, definition.as_slice(), out)?;
    write_side(alloc, image, class, out)?;
    let comment = comment_source(alloc, image, class.rec)?;
    write_paragraph(alloc, comment.as_slice(), out)
}

/// Appends classes at their places.
fn write_filings(
    alloc: Global,
    image: &Image,
    differing: &[PlacedClass<'_>],
    out: &mut Text,
) -> Result<(), Memory>
    requires { AllByRecursion (λ p. IsWritableClass image.now p.rec.now) differing.now }
    ensures { OnOk result (out.new ≡ out.old ++ edit_texts (flat_map filed (map (placed_class image.now) differing.now))) }
{
    for class in differing {
        write_filed(alloc, image, class, out)?;
    }
    Ok(())
}

/// Appends the edits of classes.
pub(crate) fn write_class_edits(
    alloc: Global,
    old: &Image,
    new: &Image,
    out: &mut Text,
) -> Result<(), Memory>
    requires old { IsOrderly old.now }
    requires new { IsOrderly new.now }
    requires old_apart { IsToldApart (image_of old.now) }
    requires new_apart { IsToldApart (image_of new.now) }
    ensures { OnOk result (out.new ≡ out.old ++ edit_texts (clearings (image_of old.now) (image_of new.now)) ++ edit_texts (class_removals (image_of old.now) (image_of new.now)) ++ edit_texts (class_filings (image_of old.now) (image_of new.now))) }
{
    let before = classes_of(alloc, old)?;
    let after = classes_of(alloc, new)?;
    let gone = differing_classes(alloc, &before, &after)?;
    let come = differing_classes(alloc, &after, &before)?;
    write_clearings(alloc, &before, gone.as_slice(), &after, out)?;
    write_removals(alloc, &before, &after, out)?;
    write_filings(alloc, new, come.as_slice(), out)
}
