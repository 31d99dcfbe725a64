// Bytes as lowercase hex; `-` stands for none.
ghost use Rattle.std.specs.Prelude.{◌≡◌, true, ◌+◌, ◌*◌, ◌≤◌, ◌<◌, length};
ghost use Rattle.lines.specs.Hex.{digit_of, digits_of, hex_of, is_digit, value_of, are_pairs, pairs, Decodes};
ghost use Rattle.lines.specs.Out.{Puts};
ghost use Rattle.little_endian.specs.Bytes.{put as over};

use crate::out::{has_room, put};

fn is_digit(b: u8) -> bool
    ensures { result ≡ is_digit b }
{
    matches!(b, b'0'..=b'9' | b'a'..=b'f')
}

// The value of a digit.
fn value(b: u8) -> u8
    requires { is_digit b ≡ true }
    ensures { (result ≡ value_of b) × (result ≤ 15) }
{
    if b <= b'9' { b - b'0' } else { b - b'a' + 10 }
}

// The digit of a value below 16.
fn digit(v: u8) -> u8
    requires { v < 16 }
    ensures { result ≡ digit_of v }
{
    if v < 10 { b'0' + v } else { b'a' - 10 + v }
}

// Whether the bytes are pairs of digits.
fn are_pairs(w: &[u8]) -> bool
    ensures { result ≡ are_pairs w.now }
{
    w.len() % 2 == 0 && w.iter().all(|b| is_digit(*b))
}

// Writes the bytes of the pairs of digits to the front of `buf`.
fn fill(w: &[u8], buf: &mut [u8])
    requires { (are_pairs w.now ≡ true) × (length (pairs w.now) ≤ length buf.old) }
    ensures { buf.new ≡ over buf.old 0 (pairs w.now) }
{
    for k in 0..w.len() / 2 {
        buf[k] = value(w[2 * k]) * 16 + value(w[2 * k + 1]);
    }
}

// Decodes a word into the front of `buf`, and answers how many bytes it writes; `None`, and `buf` as it was, where it writes no bytes or more than fit.
pub fn decode(w: &[u8], buf: &mut [u8]) -> Option<usize>
    ensures { Decodes w.now buf.old result buf.new }
{
    if text::same(w, b"-") {
        return Some(0);
    }
    if w.is_empty() || !are_pairs(w) {
        return None;
    }
    let n = w.len() / 2;
    if n > buf.len() {
        return None;
    }
    fill(w, buf);
    Some(n)
}

// Writes two digits for each byte, from `at` on.
fn spell(out: &mut [u8], at: usize, s: &[u8])
    requires { at + 2 * length s.now ≤ length out.old }
    ensures { out.new ≡ over out.old at (digits_of s.now) }
{
    for i in 0..s.len() {
        out[at + 2 * i] = digit(s[i] / 16);
        out[at + 2 * i + 1] = digit(s[i] % 16);
    }
}

// Writes bytes as a word, from `at` on.
pub fn encode(out: &mut [u8], at: usize, s: &[u8]) -> usize
    ensures { Puts out.old at (hex_of s.now) result out.new }
{
    if s.is_empty() {
        return put(out, at, b"-");
    }
    if !has_room(out, at, 2 * s.len()) {
        return out.len() + 1;
    }
    spell(out, at, s);
    at + 2 * s.len()
}
