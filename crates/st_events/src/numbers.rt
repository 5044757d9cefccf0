// Numbers of primitives.
ghost use Rattle.std.specs.Prelude.{◌≡◌, ◌+◌, ◌*◌, IfOk, IfSome};
ghost use Rattle.std.specs.Char.{digit_value};
ghost use Rattle.std.specs.Str.Parse.{digits_value};

use rb_base::Memory;

/// The digit that a byte is, if it is one.
fn digit_of(byte: u8) -> Option<u16>
    ensures { IfSome result (λ digit. digit ≡ digit_value byte) }
{
    if b'0' <= byte && byte <= b'9' {
        Some(u16::from(byte - b'0'))
    } else {
        None
    }
}

/// A number with one more digit behind it, if the byte is one and the number does not become too high.
fn with_digit(value: u16, byte: u8) -> Option<u16>
    ensures { IfSome result (λ more. more ≡ value * 10 + digit_value byte) }
{
    let digit = digit_of(byte)?;
    value.checked_mul(10)?.checked_add(digit)
}

/// The number that digits write. A text of the grammar has none above 65,535 here.
pub fn number_of(text: &[u8]) -> Result<u16, Memory>
    ensures { IfOk result (λ number. number ≡ digits_value 10 text.now) }
{
    let mut value = 0;
    for byte in text {
        let Some(more) = with_digit(value, *byte) else {
            return Err(Memory);
        };
        value = more;
    }
    Ok(value)
}
