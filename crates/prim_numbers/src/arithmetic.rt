// Sums, differences and products.
ghost use Rattle.std.specs.Prelude.{◌≡◌, ◌+ℤ◌, ◌-ℤ◌, ◌*ℤ◌};
ghost use Rattle.run_model.specs.Numbers.{fitting};

/// The number, if it is one of 64 bits.
#[tactic(auto, using(crate::proofs::Fitting::fitting_fits, crate::proofs::Fitting::fitting_none))]
pub fn fitted(number: i128) -> Option<i64>
    ensures { result ≡ fitting number }
{
    match i64::try_from(number) {
        Ok(fitted) => Some(fitted),
        Err(_) => None,
    }
}

/// The sum of two integers, if it is one of 64 bits.
#[tactic(auto, using(crate::proofs::Fitting::fitting_some))]
pub fn sum(x: i64, y: i64) -> Option<i64>
    ensures { result ≡ fitting (x +ℤ y) }
{
    x.checked_add(y)
}

/// The first integer without the second, if that is one of 64 bits.
#[tactic(auto, using(crate::proofs::Fitting::fitting_some))]
pub fn difference(x: i64, y: i64) -> Option<i64>
    ensures { result ≡ fitting (x -ℤ y) }
{
    x.checked_sub(y)
}

/// The product of two integers, if it is one of 64 bits.
#[tactic(auto, using(crate::proofs::Fitting::fitting_some))]
pub fn product(x: i64, y: i64) -> Option<i64>
    ensures { result ≡ fitting (x *ℤ y) }
{
    x.checked_mul(y)
}
