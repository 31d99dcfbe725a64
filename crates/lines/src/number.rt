// Decimal numbers of 64 bits.
ghost use Rattle.std.specs.Prelude.{◌≡◌, ◌≤◌, drop};
ghost use Rattle.lines.specs.Number.{number_of, decimal_text};
ghost use Rattle.lines.specs.Out.{Puts};

use crate::out::put;

// The number that digits alone write, if it is below 2^64.
pub fn read(w: &[u8]) -> Option<u64>
    ensures { result ≡ number_of w.now }
{
    if w.is_empty() {
        return None;
    }
    let mut a: u64 = 0;
    for b in w {
        let d = *b;
        if !d.is_ascii_digit() {
            return None;
        }
        let v = u64::from(d - b'0');
        if a > (u64::MAX - v) / 10 {
            return None;
        }
        a = a * 10 + v;
    }
    Some(a)
}

// Puts n's digits at the end of text, with no leading zero, and answers where they begin.
// Kept by hand: a `for` over the places from the last down would have an end that is never reached, to be shown so; this loop ends where the digits do.
fn decimal(n: u64, text: &mut [u8; 20]) -> usize
    ensures in_bounds { result ≤ 20 }
    ensures digits { drop result text.new ≡ decimal_text n }
{
    let mut i: usize = 19;
    let mut rest = n;
    while rest > 9 {
        text[i] = b'0' + (rest % 10) as u8;
        rest /= 10;
        i -= 1;
    }
    text[i] = b'0' + (rest % 10) as u8;
    i
}

// Writes a number with no leading zero, from `at` on.
pub fn write(out: &mut [u8], at: usize, n: u64) -> usize
    ensures { Puts out.old at (decimal_text n) result out.new }
{
    let mut text = [0u8; 20];
    let k = decimal(n, &mut text);
    put(out, at, &text[k..])
}
