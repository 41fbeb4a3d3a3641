//! Sums and products that may leave 64 bits.

ghost use Rattle.std.specs.Prelude.{◌≡◌, ◌+ℤ◌, ◌-ℤ◌, ◌*ℤ◌};
ghost use Rattle.dl_linear.specs.Columns.{narrow, both_narrow};

/// The sum, where it and both numbers are numbers of 64 bits.
pub(crate) fn add(left: Option<i64>, right: Option<i64>) -> Option<i64>
    ensures { result ≡ both_narrow (λ a b. a +ℤ b) left right }
{
    left?.checked_add(right?)
}

/// The difference, where it and both numbers are numbers of 64 bits.
pub(crate) fn subtract(left: Option<i64>, right: Option<i64>) -> Option<i64>
    ensures { result ≡ both_narrow (λ a b. a -ℤ b) left right }
{
    left?.checked_sub(right?)
}

/// The product, where it and the number are numbers of 64 bits.
pub(crate) fn multiply(factor: i64, number: Option<i64>) -> Option<i64>
    ensures { result ≡ both_narrow (λ a b. a *ℤ b) (Some factor) number }
{
    factor.checked_mul(number?)
}

/// The sum with a multiple of a number, where it is a number of 64 bits; the product alone needn't be one.
pub(crate) fn add_multiple(sum: i64, factor: i64, number: i64) -> Option<i64>
    ensures { result ≡ narrow (sum +ℤ factor *ℤ number) }
{
    let product = i128::from(factor) * i128::from(number);
    i64::try_from(i128::from(sum) + product).ok()
}

/// One number less two others, where the whole is a number of 64 bits.
pub(crate) fn less_both(number: i64, first: i64, second: i64) -> Option<i64>
    ensures { result ≡ narrow (number -ℤ first -ℤ second) }
{
    i64::try_from(i128::from(number) - i128::from(first) - i128::from(second)).ok()
}
