// Integers from -2^63 to 2^63 - 1. A u64 n stands for n - 2^63, so that their order is `<=`.
ghost use Rattle.std.specs.Prelude.{◌≡◌, ◌^◌};
ghost use Rattle.numbers.specs.Whole.{stands, above_zero};
ghost use Rattle.numbers.specs.Integer.{integer, integer_read};
ghost use Rattle.numbers.specs.Parts.{natural};
ghost use Rattle.numbers.specs.Step.{size};

use crate::digits::has;
use std::num::NonZeroU64;

// The number that digits write.
fn read_natural(s: &[u8]) -> Option<u64>
    ensures { result ≡ natural s.now }
{
    if s.is_empty() {
        return None;
    }
    let mut a: u64 = 0;
    for &d in s {
        if !d.is_ascii_digit() {
            return None;
        }
        if 922337203685477580 < a {
            return None;
        }
        a = a * 10 + u64::from(d - b'0');
    }
    if a <= 9223372036854775808 {
        Some(a)
    } else {
        None
    }
}

// The integer that `s` writes. JSON numbers with neither fraction nor exponent are such texts.
pub fn read_integer(s: &[u8]) -> Option<u64>
    ensures { integer_read result ≡ integer s.now }
{
    if has(s, 0, b'-') {
        let m = read_natural(&s[1..])?;
        return Some(9223372036854775808 - m);
    }
    let m = read_natural(s)?;
    if m < 9223372036854775808 {
        Some(9223372036854775808 + m)
    } else {
        None
    }
}

// The integer itself where it is above 0.
pub fn above_zero(n: u64) -> Option<NonZeroU64>
    ensures { size result ≡ above_zero (stands (2 ^ 63) n) }
{
    n.checked_sub(9223372036854775808).and_then(NonZeroU64::new)
}

// The integer itself.
pub fn to_i64(n: u64) -> i64
    ensures { result ≡ stands (2 ^ 63) n }
{
    if n < 9223372036854775808 {
        ((n as i64) - 9223372036854775807) - 1
    } else {
        (n - 9223372036854775808) as i64
    }
}
