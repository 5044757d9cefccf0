// The definitions and comments of classes.
ghost use Rattle.std.specs.Prelude.{◌≡◌, [], ◌++◌, ◌<◌, length, map, codes, unwrap_or, flat_map, Some, slice_get, IfOk, OnOk};
ghost use Rattle.std.specs.Option.{option_map, option_and_then, ForSome};
ghost use Rattle.rb_base.specs.Names.{name_at};
ghost use Rattle.text_model.specs.Literals.{quoted_text};
ghost use Rattle.image_model.specs.ImageNames.{OptionNames};
ghost use Rattle.class_table.specs.View.{class_name, image_of};
ghost use Rattle.class_table.specs.Valid.{IsLive};
ghost use Rattle.file_model.specs.Written.{keyword_line, names_text, definition_text, class_side_text, comment_text, class_text, user_classes, paragraph_unless_empty};
ghost use Rattle.image_file.specs.Writable.{IsWritable, IsWritableClass, text_class, class_text_at};

use crate::strings::{
    write_name, write_names, write_names_line, write_paragraph, write_string, write_string_line,
};
use class_table::{ClassId, ClassRec, Image};
use rb_base::{Memory, Text};
use std::alloc::Global;

/// The name of the superclass, or `nil` where there is none.
fn superclass_name(image: &Image, superclass: Option<ClassId>) -> &[u8]
    requires names { OptionNames (λ n. n < length image.now.names) (option_and_then (class_name image.now.classes) superclass) }
    requires live { ForSome superclass (IsLive image.now.class_order) }
    ensures { result.now ≡ unwrap_or (option_map (name_at image.now.names) (option_and_then (class_name image.now.classes) superclass)) (codes "nil") }
{
    match superclass {
        None => b"nil",
        Some(id) => match image.class_rec(id) {
            None => b"nil",
            Some(rec) => image.names().text_of(rec.name),
        },
    }
}

/// Appends the superclass and the name of a class, as its definition begins.
fn write_head(image: &Image, rec: &ClassRec, out: &mut Text) -> Result<(), Memory>
    requires { IsWritableClass image.now rec.now }
    ensures { OnOk result (out.new ≡ out.old ++ (unwrap_or (text_class image.now rec.now).superclass (codes "nil") ++ codes " subclass: #" ++ (text_class image.now rec.now).name)) }
{
    out.push_slice(superclass_name(image, rec.superclass))?;
    out.push_slice(b" subclass: #")?;
    write_name(rec.name, image.names(), out)
}

/// Appends the line of the instance variables of a class.
fn write_instance(
    alloc: Global,
    image: &Image,
    rec: &ClassRec,
    out: &mut Text,
) -> Result<(), Memory>
    requires { IsWritableClass image.now rec.now }
    ensures { OnOk result (out.new ≡ out.old ++ keyword_line (codes "instanceVariableNames: ") (names_text (text_class image.now rec.now).instance)) }
{
    write_names_line(
        alloc,
        b"instanceVariableNames: ",
        rec.instance.as_slice(),
        image.names(),
        out,
    )
}

/// Appends the line of the class variables of a class.
fn write_shared(alloc: Global, image: &Image, rec: &ClassRec, out: &mut Text) -> Result<(), Memory>
    requires { IsWritableClass image.now rec.now }
    ensures { OnOk result (out.new ≡ out.old ++ keyword_line (codes "classVariableNames: ") (names_text (text_class image.now rec.now).shared)) }
{
    write_names_line(
        alloc,
        b"classVariableNames: ",
        rec.shared.as_slice(),
        image.names(),
        out,
    )
}

/// Appends the lines of the instance variables and the class variables of a class.
fn write_variables(
    alloc: Global,
    image: &Image,
    rec: &ClassRec,
    out: &mut Text,
) -> Result<(), Memory>
    requires { IsWritableClass image.now rec.now }
    ensures { OnOk result (out.new ≡ out.old ++ (keyword_line (codes "instanceVariableNames: ") (names_text (text_class image.now rec.now).instance) ++ keyword_line (codes "classVariableNames: ") (names_text (text_class image.now rec.now).shared))) }
{
    write_instance(alloc, image, rec, out)?;
    write_shared(alloc, image, rec, out)
}

/// Appends the lines of no pool dictionaries and of a category.
fn write_category(category: &Text, out: &mut Text) -> Result<(), Memory>
    ensures { OnOk result (out.new ≡ out.old ++ (keyword_line (codes "poolDictionaries: ") (quoted_text []) ++ keyword_line (codes "category: ") (quoted_text category.now))) }
{
    write_string_line(b"poolDictionaries: ", b"", out)?;
    write_string_line(b"category: ", category.as_slice(), out)
}

/// The definition of a class.
pub fn definition_source(alloc: Global, image: &Image, rec: &ClassRec) -> Result<Text, Memory>
    requires { IsWritableClass image.now rec.now }
    ensures { IfOk result (λ source. source ≡ definition_text (text_class image.now rec.now)) }
{
    let mut source = Text::new(alloc);
    write_head(image, rec, &mut source)?;
    write_variables(alloc, image, rec, &mut source)?;
    write_category(&rec.category, &mut source)?;
    Ok(source)
}

/// The class-instance variables of a class.
pub fn class_side_source(alloc: Global, image: &Image, rec: &ClassRec) -> Result<Text, Memory>
    requires { IsWritableClass image.now rec.now }
    ensures { IfOk result (λ source. source ≡ class_side_text (text_class image.now rec.now)) }
{
    let mut source = Text::new(alloc);
    write_name(rec.name, image.names(), &mut source)?;
    source.push_slice(b" class instanceVariableNames: ")?;
    write_names(alloc, rec.class_side.as_slice(), image.names(), &mut source)?;
    Ok(source)
}

/// The comment of a class.
pub fn comment_source(alloc: Global, image: &Image, rec: &ClassRec) -> Result<Text, Memory>
    requires { IsWritableClass image.now rec.now }
    ensures { IfOk result (λ source. source ≡ comment_text (text_class image.now rec.now)) }
{
    let mut source = Text::new(alloc);
    write_name(rec.name, image.names(), &mut source)?;
    source.push_slice(b" comment: ")?;
    write_string(rec.comment.as_slice(), &mut source)?;
    Ok(source)
}

/// Appends the chunk of the class-instance variables of a class, if it has some.
fn write_class_side(
    alloc: Global,
    image: &Image,
    rec: &ClassRec,
    out: &mut Text,
) -> Result<(), Memory>
    requires { IsWritableClass image.now rec.now }
    ensures { OnOk result (out.new ≡ out.old ++ paragraph_unless_empty (text_class image.now rec.now).class_side (class_side_text (text_class image.now rec.now))) }
{
    if rec.class_side.is_empty() {
        return Ok(());
    }
    let source = class_side_source(alloc, image, rec)?;
    write_paragraph(alloc, source.as_slice(), out)
}

/// Appends the chunk of the comment of a class, if it is not empty.
fn write_comment(alloc: Global, image: &Image, rec: &ClassRec, out: &mut Text) -> Result<(), Memory>
    requires { IsWritableClass image.now rec.now }
    ensures { OnOk result (out.new ≡ out.old ++ paragraph_unless_empty rec.now.comment (comment_text (text_class image.now rec.now))) }
{
    if rec.comment.as_slice().is_empty() {
        return Ok(());
    }
    let source = comment_source(alloc, image, rec)?;
    write_paragraph(alloc, source.as_slice(), out)
}

/// Appends a class: its definition, its class-instance variables and its comment.
fn write_class(alloc: Global, image: &Image, rec: &ClassRec, out: &mut Text) -> Result<(), Memory>
    requires { IsWritableClass image.now rec.now }
    ensures { OnOk result (out.new ≡ out.old ++ class_text (text_class image.now rec.now)) }
{
    let source = definition_source(alloc, image, rec)?;
    write_paragraph(alloc, source.as_slice(), out)?;
    write_class_side(alloc, image, rec, out)?;
    write_comment(alloc, image, rec, out)
}

/// Appends the class in a slot, if it is one of the user.
fn write_slot(alloc: Global, image: &Image, id: ClassId, out: &mut Text) -> Result<(), Memory>
    requires writable { IsWritable image.now }
    requires live { IsLive image.now.class_order id }
    ensures { OnOk result (out.new ≡ out.old ++ class_text_at image.now id) }
{
    match image.class_rec(id) {
        None => Ok(()),
        Some(rec) => {
            if rec.kernel {
                Ok(())
            } else {
                write_class(alloc, image, rec, out)
            }
        }
    }
}

/// Appends the classes of the user in order.
pub(crate) fn write_classes(alloc: Global, image: &Image, out: &mut Text) -> Result<(), Memory>
    requires { IsWritable image.now }
    ensures { OnOk result (out.new ≡ out.old ++ flat_map class_text (user_classes (image_of image.now))) }
{
    for id in image.classes() {
        write_slot(alloc, image, *id, out)?;
    }
    Ok(())
}
