// Exact decimals.
ghost use Rattle.std.specs.Prelude.{◌≡◌, false, [], ◌^◌, ◌<◌, ◌≤◌, length, drop};
ghost use Rattle.numbers.specs.Decimal.{decimal, decimal_read, exact, of_whole};
ghost use Rattle.numbers.specs.Billionths.{billionths, billionths_read};
ghost use Rattle.numbers.specs.Parts.{run, meant, Kept, made, after_power, after_digits, are_few, ending, after_fraction, after_whole};

use crate::digits::{has, is_e};

// mantissa * 10^(exponent - 300), below zero if `negative`.
#[derive(Clone, Copy)]
pub struct Decimal {
    pub negative: bool,
    pub mantissa: u64,
    pub exponent: u64,
}

// What a text writes. `fixed`: it has no exponent, and at most nine digits before a dot and nine behind it.
#[derive(Clone, Copy)]
pub struct DecimalRead {
    pub value: Decimal,
    pub fixed: bool,
}

// A run of digits: the number that they write, how many they are, and the index past them.
#[derive(Clone, Copy)]
struct Run {
    value: u64,
    count: u64,
    at: usize,
}

// The digits of `s` from `from`, after `count` digits that write `value`; none where all together are more than `limit`.
fn read_run(s: &[u8], from: usize, limit: u64, value: u64, count: u64) -> Option<Run>
    requires { (from ≤ length s.now) × (limit ≤ 18) × (count ≤ limit) × (value < 10 ^ count) }
    ensures meant { meant s.now result ≡ run limit value count (drop from s.now) }
    ensures kept { Kept s.now limit result }
{
    let mut v = value;
    let mut n = count;
    for i in from..s.len() {
        let d = s[i];
        if !d.is_ascii_digit() {
            return Some(Run {
                value: v,
                count: n,
                at: i,
            });
        }
        if limit <= n {
            return None;
        }
        v = v * 10 + u64::from(d - b'0');
        n += 1;
    }
    Some(Run {
        value: v,
        count: n,
        at: s.len(),
    })
}

// A decimal that has an exponent.
fn with_power(negative: bool, mantissa: u64, exponent: u64) -> DecimalRead
    ensures { Some result ≡ made negative mantissa exponent false }
{
    DecimalRead {
        value: Decimal {
            negative,
            mantissa,
            exponent,
        },
        fixed: false,
    }
}

// The exponent's digits from `at`: 1 to 3 of them, at most 280, up to the end. `f` digits were behind the dot.
fn read_power(s: &[u8], at: usize, neg: bool, mant: u64, f: u64, below: bool) -> Option<DecimalRead>
    requires { (at ≤ length s.now) × (f ≤ 18) }
    ensures { result ≡ after_power neg mant f below (run 3 0 0 (drop at s.now)) }
{
    let Run { value, count, at } = read_run(s, at, 3, 0, 0)?;
    if at < s.len() || count == 0 || 280 < value {
        return None;
    }
    if below {
        Some(with_power(neg, mant, 300 - f - value))
    } else {
        Some(with_power(neg, mant, 300 - f + value))
    }
}

// The exponent after the digits, of which `f` were behind the dot.
fn read_exponent(s: &[u8], at: usize, neg: bool, mant: u64, f: u64) -> Option<DecimalRead>
    requires { (at < length s.now) × (f ≤ 18) }
    ensures { result ≡ after_digits neg mant f (drop at s.now) }
{
    if is_e(s[at]) {
        if has(s, at + 1, b'-') {
            read_power(s, at + 2, neg, mant, f, true)
        } else {
            read_power(s, at + 1, neg, mant, f, false)
        }
    } else {
        None
    }
}

// At most nine digits before the dot and nine behind it.
fn are_few(n: u64, f: u64) -> bool
    ensures { result ≡ are_few n f }
{
    n <= 9 && f <= 9
}

// The end after the digits, of which `n` were before the dot and `f` behind it.
fn ended(negative: bool, mantissa: u64, n: u64, f: u64) -> DecimalRead
    requires { f ≤ 18 }
    ensures { Some result ≡ ending negative mantissa n f [] }
{
    DecimalRead {
        value: Decimal {
            negative,
            mantissa,
            exponent: 300 - f,
        },
        fixed: are_few(n, f),
    }
}

// What comes after the dot; `n` digits were before it.
fn read_fraction(s: &[u8], at: usize, neg: bool, mant: u64, n: u64) -> Option<DecimalRead>
    requires { (at ≤ length s.now) × (n ≤ 18) × (mant < 10 ^ n) }
    ensures { result ≡ after_fraction neg n (run 18 mant n (drop at s.now)) }
{
    let Run {
        value,
        count,
        at: next,
    } = read_run(s, at, 18, mant, n)?;
    if count <= n {
        return None;
    }
    if next < s.len() {
        return read_exponent(s, next, neg, value, count - n);
    }
    Some(ended(neg, value, n, count - n))
}

// What comes after the sign.
fn read_whole(s: &[u8], at: usize, neg: bool) -> Option<DecimalRead>
    requires { at ≤ length s.now }
    ensures { result ≡ after_whole neg (run 18 0 0 (drop at s.now)) }
{
    let Run {
        value,
        count,
        at: next,
    } = read_run(s, at, 18, 0, 0)?;
    if count == 0 {
        return None;
    }
    if s.len() <= next {
        return Some(ended(neg, value, count, 0));
    }
    if has(s, next, b'.') {
        return read_fraction(s, next + 1, neg, value, count);
    }
    read_exponent(s, next, neg, value, 0)
}

// The decimal that `s` writes, and whether it is fixed.
pub fn read_decimal(s: &[u8]) -> Option<DecimalRead>
    ensures value { decimal_read result ≡ decimal s.now }
    ensures billionths { billionths_read result ≡ billionths s.now }
{
    if has(s, 0, b'-') {
        read_whole(s, 1, true)
    } else {
        read_whole(s, 0, false)
    }
}

// A whole number as a decimal.
pub fn whole_decimal(n: u64) -> Decimal
    ensures { exact result ≡ of_whole n }
{
    Decimal {
        negative: false,
        mantissa: n,
        exponent: 300,
    }
}
