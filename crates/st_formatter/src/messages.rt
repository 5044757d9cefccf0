// Parts of messages.
ghost use Rattle.std.specs.Prelude.{◌≡◌, suc, ◌<◌, ◌≤◌, ◌++◌, ◌&&◌, length, take, true, IfOk, OnOk, OnErr, IsErr, codes};
ghost use Rattle.text_model.specs.Pieces.{keywords_of, pieces_behind};
ghost use Rattle.st_formatter.specs.Turns.{items_at};

use crate::backward::Backward;
use crate::selectors::keyword_start;
use rb_base::Memory;

/// Whether both hold.
pub(crate) fn both(first: bool, second: bool) -> bool
    ensures { result ≡ (first && second) }
{
    first && second
}

/// What is written has no block that is not flat.
pub(crate) fn flat_after(written: Result<(), Memory>) -> Result<bool, Memory>
    ensures ok { OnOk written (result ≡ Ok true) }
    ensures err { OnErr written (IsErr result) }
{
    written?;
    Ok(true)
}

/// Writes the keyword of this number behind a blank before the text, or nothing where a selector of `count` keywords
/// has none. It is the last keyword of `rest`, and what is returned is `rest` without it.
pub(crate) fn write_keyword<'a>(
    rest: &'a [u8],
    at: usize,
    count: usize,
    out: &mut Backward<'_, '_>,
) -> Result<&'a [u8], Memory>
    requires last { at < count → length (keywords_of rest.now) ≡ suc at }
    requires none { count ≤ at → length (keywords_of rest.now) ≤ at }
    ensures text { OnOk result (out.new ≡ pieces_behind (codes " ") (items_at (keywords_of rest.now) at) ++ out.old) }
    ensures rest { IfOk result (λ left. keywords_of left.now ≡ take at (keywords_of rest.now)) }
{
    if at >= count {
        return Ok(rest);
    }
    let start = keyword_start(rest, at);
    out.put(&rest[start..])?;
    out.put_byte(b' ')?;
    Ok(&rest[..start])
}
