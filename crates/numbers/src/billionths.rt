// Floats of the shape that a step asks for, in whole billionths. A u64 n stands for n - 2^63, as of integers.
ghost use Rattle.std.specs.Prelude.{◌≡◌, ◌-◌, ◌*◌, ◌^◌, ◌≤◌, ◌<◌};
ghost use Rattle.numbers.specs.Whole.{signed, stands};
ghost use Rattle.numbers.specs.Integer.{integer_read};
ghost use Rattle.numbers.specs.Billionths.{billionths};

use crate::decimals::{Decimal, read_decimal};
use crate::digits::power_of_ten;

// The decimal in billionths; the answer n stands for n - 2^63.
fn in_billionths(d: Decimal) -> u64
    requires { (291 ≤ d.exponent) × (d.exponent ≤ 300) × (d.mantissa * 10 ^ (d.exponent - 291) < 10 ^ 18) }
    ensures { stands (2 ^ 63) result ≡ signed d.negative (d.mantissa * 10 ^ (d.exponent - 291)) }
{
    let n = d.mantissa * power_of_ten(d.exponent - 291);
    if d.negative {
        9223372036854775808 - n
    } else {
        9223372036854775808 + n
    }
}

// The billionths that `s` writes.
pub fn read_billionths(s: &[u8]) -> Option<u64>
    ensures { integer_read result ≡ billionths s.now }
{
    let read = read_decimal(s)?;
    if read.fixed {
        Some(in_billionths(read.value))
    } else {
        None
    }
}
