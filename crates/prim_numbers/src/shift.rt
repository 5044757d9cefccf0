// Shifts.
ghost use Rattle.std.specs.Prelude.{◌≡◌, ◌<◌, ◌^◌, pos, ◌*ℤ◌};
ghost use Rattle.run_model.specs.Numbers.{fitting, floor_quotient, shifted};

use crate::arithmetic::fitted;

/// The integer times 2 to the power `places`, if that is one of 64 bits.
#[tactic(auto, using(crate::proofs::Shifts::shifted_far))]
fn shifted_left(number: i64, places: u64) -> Option<i64>
    ensures { result ≡ fitting (number *ℤ pos (2 ^ places)) }
{
    if number == 0 {
        return Some(0);
    }
    if places >= 64 {
        return None;
    }
    let factor = 2_i128.pow(places as u32);
    fitted(number as i128 * factor)
}

/// The integer divided by 2 to the power `places`, rounded down.
#[tactic(auto, using(crate::proofs::Shifts::quotients))]
fn shifted_right(number: i64, places: u64) -> i64
    ensures { result ≡ floor_quotient number (pos (2 ^ places)) }
{
    if places >= 63 {
        return if number < 0 { -1 } else { 0 };
    }
    number.div_euclid(2_i64.pow(places as u32))
}

/// The first integer times 2 to the power of the second, rounded down, if that is one of 64 bits.
#[tactic(auto, using(crate::proofs::Fitting::fitting_fits))]
pub fn shifted(x: i64, y: i64) -> Option<i64>
    ensures { result ≡ fitting (shifted x y) }
{
    if y < 0 {
        Some(shifted_right(x, y.unsigned_abs()))
    } else {
        shifted_left(x, y.unsigned_abs())
    }
}
