// Quotients that are rounded down, and what they leave.
ghost use Rattle.std.specs.Prelude.{◌≡◌, ◌<◌, ◌≤◌, ◌^◌, ◌/◌, pos, neg_ℤ, false, unsigned_abs};
ghost use Rattle.std.specs.Int.{div_ceil};
ghost use Rattle.run_model.specs.Numbers.{fitting, is_zero, floor_quotient, floor_remainder};

use crate::arithmetic::fitted;

/// The quotient of two sizes rounded down, as an integer.
#[tactic(auto, using(crate::proofs::Floors::div_le))]
fn size_below(dividend: u64, divisor: u64) -> i128
    requires { 0 < divisor }
    ensures value { result ≡ pos (dividend / divisor) }
    ensures bound { unsigned_abs result ≤ dividend }
{
    (dividend / divisor) as i128
}

/// The quotient of two sizes rounded up, as an integer with a minus sign.
#[tactic(auto, using(crate::proofs::Floors::div_ceil_le))]
fn minus_size_above(dividend: u64, divisor: u64) -> i128
    requires { 0 < divisor }
    ensures value { result ≡ neg_ℤ (pos (div_ceil dividend divisor)) }
    ensures bound { unsigned_abs result ≤ dividend }
{
    -(dividend.div_ceil(divisor) as i128)
}

/// The quotient of two integers rounded down, which may be 2^63.
#[tactic(auto, using(crate::proofs::Floors::quotients))]
fn quotient(x: i64, y: i64) -> i128
    requires { is_zero y ≡ false }
    ensures value { result ≡ floor_quotient x y }
    ensures bound { unsigned_abs result ≤ 2 ^ 63 }
{
    let dividend = x.unsigned_abs();
    let divisor = y.unsigned_abs();
    if x < 0 {
        if y < 0 {
            size_below(dividend, divisor)
        } else {
            minus_size_above(dividend, divisor)
        }
    } else if y < 0 {
        minus_size_above(dividend, divisor)
    } else {
        size_below(dividend, divisor)
    }
}

/// The quotient of two integers rounded down, if it is one of 64 bits.
pub fn floor_quotient(x: i64, y: i64) -> Option<i64>
    requires { is_zero y ≡ false }
    ensures { result ≡ fitting (floor_quotient x y) }
{
    fitted(quotient(x, y))
}

/// What is left of the first integer by the quotient rounded down. It has the sign of the divisor, or is 0.
pub fn floor_remainder(x: i64, y: i64) -> Option<i64>
    requires { is_zero y ≡ false }
    ensures { result ≡ fitting (floor_remainder x y) }
{
    let whole = quotient(x, y) * y as i128;
    fitted(x as i128 - whole)
}
