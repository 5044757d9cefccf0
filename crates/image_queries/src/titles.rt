// The titles of methods and do-its.
ghost use Rattle.std.specs.Prelude.{◌≡◌, ◌<◌, ◌+◌, ◌++◌, [], codes, length, unwrap_or, option_map, IfOk};
ghost use Rattle.std.specs.Fmt.{decimal};
ghost use Rattle.rb_base.specs.Names.{name_at};
ghost use Rattle.class_table.specs.View.{class_name};
ghost use Rattle.class_table.specs.Valid.{IsLive, IsOrderly};
ghost use Rattle.image_queries.specs.Parts.{title_of};

use crate::lines::write_number;
use class_table::{ClassId, Image, MethodInfo};
use rb_base::{Memory, NameId, Text};
use std::alloc::Global;

/// The text of a name, or nothing where there is no such name.
pub fn text_of(image: &Image, name: NameId) -> &[u8]
    ensures { result.now ≡ name_at image.now.names name }
{
    let names = image.names();
    if name.0 < names.len() {
        names.text_of(name)
    } else {
        b""
    }
}

/// The text of the name of a live class.
fn class_name(image: &Image, class: ClassId) -> &[u8]
    requires { IsLive image.now.class_order class }
    ensures { result.now ≡ unwrap_or (option_map (name_at image.now.names) (class_name image.now.classes class)) [] }
{
    match image.class_rec(class) {
        None => b"",
        Some(rec) => text_of(image, rec.name),
    }
}

/// The title of a method of a live class: the class, its side and the selector.
pub fn method_title(alloc: Global, image: &Image, info: &MethodInfo<'_>) -> Result<Text, Memory>
    requires { IsLive image.now.class_order info.now.class }
    ensures { IfOk result (λ title. title ≡ title_of image.now.names image.now.classes info.now.class info.now.meta info.now.selector) }
{
    let mut title = Text::from_slice(alloc, class_name(image, info.class))?;
    if info.meta {
        title.push_slice(b" class>>")?;
    } else {
        title.push_slice(b">>")?;
    }
    title.push_slice(text_of(image, info.selector))?;
    Ok(title)
}

/// The title of the do-it of a number from 0, which is below the greatest `usize`: its number from 1.
pub fn doit_title(alloc: Global, number: usize) -> Result<Text, Memory>
    requires { number < usize.MAX }
    ensures { IfOk result (λ title. title ≡ codes "doit " ++ decimal (number + 1)) }
{
    let mut title = Text::from_slice(alloc, b"doit ")?;
    write_number(alloc, number + 1, &mut title)?;
    Ok(title)
}
