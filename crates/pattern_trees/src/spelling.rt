// How metavariables are spelled.
ghost use Rattle.std.specs.Prelude.{◌≡◌, ◌&&◌, ◌+◌, ◌<◌, ◌^◌, IfOk, IfSome, position};
ghost use Rattle.std.specs.List.{list_any};
ghost use Rattle.text_model.specs.Pieces.{is_colon, keywords_of};
ghost use Rattle.pattern_model.specs.Spelled as model;

use pattern_model::MetaKind;
use rb_base::{Memory, Text};
use std::alloc::Global;

/// Whether the first byte is this one.
pub(crate) fn begins(byte: u8, text: &[u8]) -> bool
    ensures { result ≡ model.begins byte text.now }
{
    match text.split_first() {
        None => false,
        Some((first, _)) => *first == byte,
    }
}

/// The bytes behind the first one.
pub(crate) fn behind(text: &[u8]) -> &[u8]
    ensures { result.now ≡ model.behind text.now }
{
    match text.split_first() {
        None => text,
        Some((_, rest)) => rest,
    }
}

/// Whether a text is spelled as a metavariable.
pub(crate) fn is_meta(text: &[u8]) -> bool
    ensures { result ≡ model.is_meta text.now }
{
    begins(b'`', text)
}

/// What stands behind the backquotes of a metavariable.
pub(crate) fn marked(text: &[u8]) -> &[u8]
    ensures { result.now ≡ model.marked text.now }
{
    let rest = behind(text);
    if begins(b'`', rest) {
        behind(rest)
    } else {
        rest
    }
}

/// Whether a selector is spelled as any message.
pub(crate) fn is_message(selector: &[u8]) -> bool
    ensures { result ≡ (model.is_meta selector.now && model.begins 64 (model.marked selector.now)) }
{
    is_meta(selector) && begins(b'@', marked(selector))
}

/// Whether a keyword among these is spelled as a metavariable.
pub(crate) fn have_meta(keywords: &[Text]) -> bool
    ensures { result ≡ list_any model.is_meta keywords.now }
{
    keywords.iter().any(|keyword| is_meta(keyword.as_slice()))
}

/// The text without the colon at its end.
pub(crate) fn uncoloned(text: &[u8]) -> &[u8]
    ensures { result.now ≡ model.uncoloned text.now }
{
    &text[..text.len().saturating_sub(1)]
}

/// The kind and the name of a metavariable that stands as an operand or a statement.
pub(crate) fn operand_parts(text: &[u8]) -> (MetaKind, &[u8])
    ensures { model.operand_meta text.now ≡ model.spelled text.now result.0 result.1.now }
{
    let name = marked(text);
    let rest = behind(name);
    if begins(b'#', name) {
        (MetaKind::Constant, rest)
    } else if begins(b'@', name) {
        (MetaKind::Expression, rest)
    } else if !begins(b'.', name) {
        (MetaKind::Name, name)
    } else if begins(b'@', rest) {
        (MetaKind::StatementList, behind(rest))
    } else {
        (MetaKind::Statement, rest)
    }
}

/// Where the first colon stands.
fn colon_in(text: &[u8]) -> Option<usize>
    ensures at { result ≡ position is_colon text.now }
    ensures fits { IfSome result (λ at. at + 1 < 2 ^ 64) }
{
    text.iter().position(|byte| *byte == b':')
}

/// A selector cut behind each colon: its keywords, or the whole of one without a colon.
pub(crate) fn keywords_of(alloc: Global, selector: &[u8]) -> Result<Vec<Text>, Memory>
    ensures { IfOk result (λ ks. ks.items ≡ keywords_of selector.now) }
{
    let mut keywords = Vec::new(alloc);
    let mut rest = selector;
    while let Some(at) = colon_in(rest) {
        let (keyword, others) = rest.split_at(at + 1);
        keywords.push(Text::from_slice(alloc, keyword)?)?;
        rest = others;
    }
    if rest.is_empty() {
        return Ok(keywords);
    }
    keywords.push(Text::from_slice(alloc, rest)?)?;
    Ok(keywords)
}
