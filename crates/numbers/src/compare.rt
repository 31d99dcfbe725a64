// The order of exact decimals.
ghost use Rattle.std.specs.Prelude.{◌≡◌, ◌*◌, ◌/◌, ◌^◌, leb};
ghost use Rattle.numbers.specs.Decimal.{exact};
ghost use Rattle.numbers.specs.Ratio.{ratio, le_q, decimal_in_bounds, decimal_limit};

use crate::decimals::Decimal;
use crate::digits::{POWER_MOST, power_of_ten};

// x without its last k digits.
fn shift_down(x: u64, k: u64) -> u64
    ensures { result ≡ x / 10 ^ k }
{
    if k <= POWER_MOST {
        x / power_of_ten(k)
    } else {
        0
    }
}

// a * 10^ea <= b * 10^eb.
fn size_le(a: u64, ea: u64, b: u64, eb: u64) -> bool
    ensures { result ≡ leb (a * 10 ^ ea) (b * 10 ^ eb) }
{
    if eb < ea {
        return a <= shift_down(b, ea - eb);
    }
    if a == 0 {
        return true;
    }
    shift_down(a - 1, eb - ea) < b
}

// a <= b, exactly.
// Kept by hand: no `Ord`. 1e1 and 10 are equal in this order and differ as structs, so that `==` and `cmp` would have to be written by hand as well, for two callers that ask for `<=` alone.
pub fn decimal_le(a: Decimal, b: Decimal) -> bool
    ensures { result ≡ le_q (ratio (exact a)) (ratio (exact b)) }
{
    match (a.negative, b.negative) {
        (true, true) => size_le(b.mantissa, b.exponent, a.mantissa, a.exponent),
        (true, false) => true,
        (false, true) => a.mantissa == 0 && b.mantissa == 0,
        (false, false) => size_le(a.mantissa, a.exponent, b.mantissa, b.exponent),
    }
}

// d is within the bounds.
#[tactic(auto, unfolding(crate::specs::Ratio::decimal_in_bounds))]
pub fn decimal_in_range(d: Decimal, min: Option<Decimal>, max: Option<Decimal>) -> bool
    ensures { result ≡ decimal_in_bounds (decimal_limit min) (decimal_limit max) (exact d) }
{
    min.is_none_or(|m| decimal_le(m, d)) && max.is_none_or(|m| decimal_le(d, m))
}
