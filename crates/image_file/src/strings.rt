// Strings, names and chunks of a file-out.
ghost use Rattle.std.specs.Prelude.{◌≡◌, ◌<◌, ◌++◌, length, map, codes, IfOk, OnOk};
ghost use Rattle.std.specs.List.{AllByRecursion};
ghost use Rattle.rb_base.specs.Names.{name_at};
ghost use Rattle.rb_base.specs.Doubling.{doubled};
ghost use Rattle.text_model.specs.Pieces.{pieces_joined, pieces_behind};
ghost use Rattle.text_model.specs.Literals.{quoted_text};
ghost use Rattle.file_model.specs.Written.{chunk_text, paragraph, names_text, keyword_line};

use chunk_format::write_chunk;
use rb_base::{Memory, NameId, Names, Text};
use std::alloc::Global;

/// The quote round a string, which stands twice inside one.
const QUOTE: u8 = b'\'';

/// Appends the bytes with each quote written twice.
fn write_doubled(text: &[u8], out: &mut Text) -> Result<(), Memory>
    ensures { OnOk result (out.new ≡ out.old ++ doubled 39 text.now) }
{
    for byte in text {
        if *byte == QUOTE {
            out.push_slice(b"''")?;
        } else {
            out.push_slice(&[*byte])?;
        }
    }
    Ok(())
}

/// Appends a string that holds the bytes.
pub fn write_string(text: &[u8], out: &mut Text) -> Result<(), Memory>
    ensures { OnOk result (out.new ≡ out.old ++ quoted_text text.now) }
{
    out.push_slice(b"'")?;
    write_doubled(text, out)?;
    out.push_slice(b"'")
}

/// Appends the text of a name.
pub(crate) fn write_name(name: NameId, names: &Names, out: &mut Text) -> Result<(), Memory>
    requires { name < length names.now }
    ensures { OnOk result (out.new ≡ out.old ++ name_at names.now name) }
{
    out.push_slice(names.text_of(name))
}

/// Appends the texts of names, each behind a blank.
fn write_further_names(ids: &[NameId], names: &Names, out: &mut Text) -> Result<(), Memory>
    requires { AllByRecursion (λ n. n < length names.now) ids.now }
    ensures { OnOk result (out.new ≡ out.old ++ pieces_behind (codes " ") (map (name_at names.now) ids.now)) }
{
    for id in ids {
        out.push_slice(b" ")?;
        write_name(*id, names, out)?;
    }
    Ok(())
}

/// The texts of names with one blank between them.
fn joined_names(alloc: Global, ids: &[NameId], names: &Names) -> Result<Text, Memory>
    requires { AllByRecursion (λ n. n < length names.now) ids.now }
    ensures { IfOk result (λ text. text ≡ pieces_joined (codes " ") (map (name_at names.now) ids.now)) }
{
    let mut joined = Text::new(alloc);
    if let Some((first, others)) = ids.split_first() {
        write_name(*first, names, &mut joined)?;
        write_further_names(others, names, &mut joined)?;
    }
    Ok(joined)
}

/// Appends a string that holds names, with one blank between them.
pub(crate) fn write_names(
    alloc: Global,
    ids: &[NameId],
    names: &Names,
    out: &mut Text,
) -> Result<(), Memory>
    requires { AllByRecursion (λ n. n < length names.now) ids.now }
    ensures { OnOk result (out.new ≡ out.old ++ names_text (map (name_at names.now) ids.now)) }
{
    let joined = joined_names(alloc, ids, names)?;
    write_string(joined.as_slice(), out)
}

/// Appends a line with a keyword, behind a tabulator.
fn write_keyword(keyword: &[u8], out: &mut Text) -> Result<(), Memory>
    ensures { OnOk result (out.new ≡ out.old ++ (codes "\n\t" ++ keyword.now)) }
{
    out.push_slice(b"\n\t")?;
    out.push_slice(keyword)
}

/// Appends a line with a keyword and a string.
pub(crate) fn write_string_line(keyword: &[u8], text: &[u8], out: &mut Text) -> Result<(), Memory>
    ensures { OnOk result (out.new ≡ out.old ++ keyword_line keyword.now (quoted_text text.now)) }
{
    write_keyword(keyword, out)?;
    write_string(text, out)
}

/// Appends a line with a keyword and a string that holds names.
pub(crate) fn write_names_line(
    alloc: Global,
    keyword: &[u8],
    ids: &[NameId],
    names: &Names,
    out: &mut Text,
) -> Result<(), Memory>
    requires { AllByRecursion (λ n. n < length names.now) ids.now }
    ensures { OnOk result (out.new ≡ out.old ++ keyword_line keyword.now (names_text (map (name_at names.now) ids.now))) }
{
    write_keyword(keyword, out)?;
    write_names(alloc, ids, names, out)
}

/// Appends a source as a chunk.
pub fn write_ended_chunk(alloc: Global, source: &[u8], out: &mut Text) -> Result<(), Memory>
    ensures { OnOk result (out.new ≡ out.old ++ chunk_text source.now) }
{
    write_chunk(alloc, source, out)?;
    out.push_slice(b"!")
}

/// Appends a source as a chunk and an empty line.
pub fn write_paragraph(alloc: Global, source: &[u8], out: &mut Text) -> Result<(), Memory>
    ensures { OnOk result (out.new ≡ out.old ++ paragraph source.now) }
{
    write_ended_chunk(alloc, source, out)?;
    out.push_slice(b"\n\n")
}
