// The chunks that are written in place of those of other Smalltalks.
ghost use Rattle.std.specs.Prelude.{◌≡◌, ◌++◌, [], codes, if◌then◌else◌, IfOk, OnOk};
ghost use Rattle.text_model.specs.Literals.{quoted_text};
ghost use Rattle.import_model.specs.Foreign as model;
ghost use Rattle.import_model.specs.Steps as step;
ghost use Rattle.import_chunks.specs.Told.{strings_text};

use crate::foreign::ForeignStrings;
use image_file::write_string;
use rb_base::{Memory, Text};
use std::alloc::Global;

/// Appends a keyword, with what stands round it, and a string.
fn write_argument(keyword: &[u8], text: &[u8], out: &mut Text) -> Result<(), Memory>
    ensures { OnOk result (out.new ≡ out.old ++ (keyword.now ++ quoted_text text.now)) }
{
    out.push_slice(keyword)?;
    write_string(text, out)
}

/// A base as a category, with its tag behind a dash if it has one.
fn category_of(alloc: Global, base: &[u8], tag: &[u8]) -> Result<Text, Memory>
    ensures { IfOk result (λ category. category ≡ model.tagged base.now tag.now) }
{
    let mut category = Text::from_slice(alloc, base)?;
    if tag.is_empty() {
        return Ok(category);
    }
    category.push_slice(b"-")?;
    category.push_slice(tag)?;
    Ok(category)
}

/// The definition of a class under another.
pub(crate) fn definition_source(
    alloc: Global,
    superclass: &[u8],
    strings: &ForeignStrings<'_>,
) -> Result<Text, Memory>
    ensures { IfOk result (λ source. source ≡ step.definition_source superclass.now (strings_text strings.now)) }
{
    let category = category_of(alloc, strings.base, strings.tag)?;
    let mut source = Text::from_slice(alloc, superclass)?;
    source.push_slice(b" subclass: #")?;
    source.push_slice(strings.name)?;
    write_argument(
        b"\n\tinstanceVariableNames: ",
        strings.instance,
        &mut source,
    )?;
    write_argument(b"\n\tclassVariableNames: ", strings.shared, &mut source)?;
    write_argument(b"\n\tpoolDictionaries: ", b"", &mut source)?;
    write_argument(b"\n\tcategory: ", category.as_slice(), &mut source)?;
    Ok(source)
}

/// What stands behind the name of a class to name its class side.
fn side_of(meta: bool) -> &'static [u8]
    ensures { result.now ≡ (if meta then codes " class" else []) }
{
    if meta { b" class" } else { b"" }
}

/// The beginning of a run of methods of a class, or of its class side.
pub(crate) fn run_source(
    alloc: Global,
    class: &[u8],
    meta: bool,
    protocol: &[u8],
) -> Result<Text, Memory>
    ensures { IfOk result (λ source. source ≡ step.run_source (record { class = class.now; meta = meta; protocol = protocol.now })) }
{
    let mut source = Text::from_slice(alloc, class)?;
    source.push_slice(side_of(meta))?;
    write_argument(b" methodsFor: ", protocol, &mut source)?;
    Ok(source)
}

/// The comment of a class.
pub(crate) fn comment_source(alloc: Global, class: &[u8], text: &[u8]) -> Result<Text, Memory>
    ensures { IfOk result (λ source. source ≡ step.comment_source class.now text.now) }
{
    let mut source = Text::from_slice(alloc, class)?;
    write_argument(b" comment: ", text, &mut source)?;
    Ok(source)
}
