// Numbers (RFC 8259, 6).
ghost use Rattle.std.specs.Prelude.{◌≡◌, length};
ghost use Rattle.json_text.specs.Bytes.{Skipped, Scanned, Moved};
ghost use Rattle.json_text.specs.Number.{is_digit, digits_end, optional, is_minus, is_sign, some_digits, int_at, frac_at, is_exp, exp_at, number_at};

use super::peek;

#[tactic(auto, unfolding(crate::specs::Number::is_digit, abnf::specs::Accepts::in_range))]
fn is_digit(b: u16) -> bool
    ensures { result ≡ is_digit b }
{
    matches!(b, 48..=57)
}

// Past the digits at `at`.
fn digits(s: &[u8], at: usize) -> usize
    ensures { Skipped (digits_end s.now at) at (length s.now) result }
{
    for i in at..s.len() {
        if !is_digit(u16::from(s[i])) {
            return i;
        }
    }
    at.max(s.len())
}

fn some_digits(s: &[u8], at: usize) -> Result<usize, usize>
    ensures { Scanned (some_digits s.now at) at (length s.now) result }
{
    if is_digit(peek(s, at)) {
        Ok(digits(s, at + 1))
    } else {
        Err(at)
    }
}

fn minus(s: &[u8], at: usize) -> usize
    ensures { Skipped (optional is_minus s.now at) at (length s.now) result }
{
    if peek(s, at) == 45 { at + 1 } else { at }
}

#[tactic(auto, unfolding(crate::specs::Number::is_sign))]
fn is_sign(b: u16) -> bool
    ensures { result ≡ is_sign b }
{
    matches!(b, 43 | 45)
}

fn sign(s: &[u8], at: usize) -> usize
    ensures { Skipped (optional is_sign s.now at) at (length s.now) result }
{
    if is_sign(peek(s, at)) { at + 1 } else { at }
}

fn int_part(s: &[u8], at: usize) -> Result<usize, usize>
    ensures { Scanned (int_at s.now at) at (length s.now) result }
{
    if peek(s, at) == 48 {
        Ok(at + 1)
    } else {
        some_digits(s, at)
    }
}

fn fraction(s: &[u8], at: usize) -> Result<usize, usize>
    ensures { Moved (frac_at s.now at) at (length s.now) result }
{
    if peek(s, at) == 46 {
        some_digits(s, at + 1)
    } else {
        Ok(at)
    }
}

#[tactic(auto, unfolding(crate::specs::Number::is_exp))]
fn is_exp(b: u16) -> bool
    ensures { result ≡ is_exp b }
{
    matches!(b, 69 | 101)
}

fn exponent(s: &[u8], at: usize) -> Result<usize, usize>
    ensures { Moved (exp_at s.now at) at (length s.now) result }
{
    if is_exp(peek(s, at)) {
        some_digits(s, sign(s, at + 1))
    } else {
        Ok(at)
    }
}

// The number at `at`.
pub fn number(s: &[u8], at: usize) -> Result<usize, usize>
    ensures { Scanned (number_at s.now at) at (length s.now) result }
{
    let i = int_part(s, minus(s, at))?;
    let j = fraction(s, i)?;
    exponent(s, j)
}
