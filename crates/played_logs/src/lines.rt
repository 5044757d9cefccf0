// The lines of replies.
ghost use Rattle.std.specs.Prelude.{◌≡◌, ◌++◌, OnOk};
ghost use Rattle.std.specs.Fmt.{decimal};
ghost use Rattle.played_logs.specs.Told.{told_text, told_line};

use itoa::Buffer;
use rb_base::{Memory, Text};
use team_core::Reply;

/// Appends a number in decimal.
fn push_number(number: u64, out: &mut Text) -> Result<(), Memory>
    ensures { OnOk result (out.new ≡ out.old ++ decimal number) }
{
    let mut buffer = Buffer::new();
    out.push_slice(buffer.format(number).as_bytes())
}

/// Appends a word, and a number after it.
fn push_counted(word: &[u8], number: u64, out: &mut Text) -> Result<(), Memory>
    ensures { OnOk result (out.new ≡ out.old ++ word.now ++ decimal number) }
{
    out.push_slice(word)?;
    push_number(number, out)
}

/// Appends a reply in words.
fn push_reply(reply: &Reply<Text>, out: &mut Text) -> Result<(), Memory>
    ensures { OnOk result (out.new ≡ out.old ++ told_text reply.now) }
{
    match reply {
        Reply::Accepted { revision } => push_counted(b"ok ", *revision, out),
        Reply::AlreadyOpen => out.push_slice(b"open"),
        Reply::NotOpen => out.push_slice(b"closed"),
        Reply::Full => out.push_slice(b"full"),
        Reply::Stale { revision, event } => {
            push_counted(b"stale ", *revision, out)?;
            push_counted(b" ", *event, out)
        }
        Reply::Refused { nth, cause } => {
            push_counted(b"refused ", *nth as u64, out)?;
            out.push_slice(cause.as_slice())
        }
    }
}

/// Appends the line of the event of this number.
pub(crate) fn push_reply_line(
    number: usize,
    reply: &Reply<Text>,
    out: &mut Text,
) -> Result<(), Memory>
    ensures { OnOk result (out.new ≡ out.old ++ told_line number reply.now) }
{
    push_number(number as u64, out)?;
    out.push_slice(b" ")?;
    push_reply(reply, out)?;
    out.push_slice(b"\n")
}
