// The lines of a script, and the words of a line.
ghost use Rattle.std.specs.Prelude.{◌≡◌, ◌==◌, nat_eq, codes, IfOk};
ghost use Rattle.std.specs.List.{list_all, slice_split, starts_with};
ghost use Rattle.token_model.specs.Bytes as class;
ghost use Rattle.std.specs.Str.Lines.{strip_carriage_return};
ghost use Rattle.script_model.specs.Lines as script;
ghost use Rattle.script_lang.specs.Shown.{texts, filled};

use crate::bytes::is_blank;
use std::alloc::{AllocError, Global};

/// Whether a line has nothing but blanks.
pub fn is_blank_line(line: &[u8]) -> bool
    ensures { result ≡ list_all class.is_blank line.now }
{
    line.iter().all(|byte| is_blank(*byte))
}

/// Whether a line begins with two minus signs.
fn is_comment(line: &[u8]) -> bool
    ensures { result ≡ starts_with nat_eq line.now (codes "--") }
{
    line.starts_with(b"--")
}

/// Whether a line says nothing: it is blank, or begins with two minus signs.
pub fn is_skipped(line: &[u8]) -> bool
    ensures { result ≡ script.is_skipped line.now }
{
    is_blank_line(line) || is_comment(line)
}

/// The pieces of a line between blanks, which may be empty.
fn pieces_of(alloc: Global, line: &[u8]) -> Result<Vec<&[u8]>, AllocError>
    ensures { IfOk result (λ pieces. texts pieces.items ≡ slice_split class.is_blank line.now) }
{
    line.split(|byte| is_blank(*byte)).collect(alloc)
}

/// The pieces that are not empty.
fn filled<'t>(alloc: Global, pieces: &[&'t [u8]]) -> Result<Vec<&'t [u8]>, AllocError>
    ensures { IfOk result (λ words. texts words.items ≡ filled (texts pieces.now)) }
{
    let mut words = Vec::new(alloc);
    for piece in pieces {
        if !piece.is_empty() {
            words.push(*piece)?;
        }
    }
    Ok(words)
}

/// The words of a line, with blanks between them.
pub(crate) fn words_of(alloc: Global, line: &[u8]) -> Result<Vec<&[u8]>, AllocError>
    ensures { IfOk result (λ words. texts words.items ≡ script.words_of line.now) }
{
    let pieces = pieces_of(alloc, line)?;
    filled(alloc, pieces.as_slice())
}

/// The parts of a text between line feeds.
fn parts_of(alloc: Global, text: &[u8]) -> Result<Vec<&[u8]>, AllocError>
    ensures { IfOk result (λ parts. texts parts.items ≡ slice_split (λ byte. byte == 10) text.now) }
{
    text.split(|byte| *byte == b'\n').collect(alloc)
}

/// The line without the carriage return at its end.
fn without_return(line: &[u8]) -> &[u8]
    ensures { result.now ≡ strip_carriage_return line.now }
{
    match line.split_last() {
        Some((last, front)) if *last == b'\r' => front,
        _ => line,
    }
}

/// The lines of a text, each without the line feed, and the carriage return before it, that end it.
pub fn lines_of(alloc: Global, text: &[u8]) -> Result<Vec<&[u8]>, AllocError>
    ensures { IfOk result (λ lines. texts lines.items ≡ script.lines_of text.now) }
{
    let parts = parts_of(alloc, text)?;
    let mut lines = Vec::new(alloc);
    let Some((last, front)) = parts.as_slice().split_last() else {
        return Ok(lines);
    };
    for part in front {
        lines.push(without_return(part))?;
    }
    if !last.is_empty() {
        lines.push(*last)?;
    }
    Ok(lines)
}
