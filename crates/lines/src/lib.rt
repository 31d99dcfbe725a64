// Lines of words: what the programs that read lines and answer them share.
#![tactic(auto)]

pub mod flag;
pub mod hex;
pub mod number;
pub mod out;
pub mod word;

ghost use Rattle.std.specs.Prelude.{◌≡◌, ◌<◌, ◌≤◌, nat_le, length, take, IfOk, OnOk};
ghost use Rattle.std.specs.Io.KnownBytes.{Appends, Consumes, IsAtEnd};
ghost use Rattle.lines.specs.Out.{FitsBuffer};
ghost use Rattle.lines.specs.Streams.{HoldsAll, front};

use std::io;
use std::io::{Read, Write};

// 65,536 zeros, to be lent.
pub fn large_buffer() -> [u8; 65536]
    ensures { 65536 ≡ length result }
{
    [0; 65536]
}

// Reads until the buffer is full or the stream ends, and answers how many bytes stand in front.
// Kept by hand: `read_exact` refuses a shorter stream, `read_to_end` needs the heap, and `io::copy` into a lent slice promises nothing of its bytes.
fn fill<R: Read>(from: &mut R, buf: &mut [u8]) -> io::Result<usize>
    ensures within { IfOk result (λ n. n ≤ length buf.new) }
    ensures bytes { IfOk result (λ n. Consumes (R.remaining from.old) (R.remaining from.new) (take n buf.new)) }
    ensures end { IfOk result (λ n. n < length buf.new → IsAtEnd (R.remaining from.new)) }
{
    let mut done: usize = 0;
    while done < buf.len() {
        let n = from.read(&mut buf[done..])?;
        if n == 0 {
            break;
        }
        done += n;
    }
    Ok(done)
}

// Reads a stream to its end, and answers how much of the buffer it fills; `None` is of input that is too long. The buffer is a byte longer than the longest that is taken.
pub fn read_input<R: Read>(from: &mut R, buf: &mut [u8]) -> io::Result<Option<usize>>
    ensures fits { IfOk result (λ i. FitsBuffer i buf.new) }
    ensures all { IfOk result (λ i. HoldsAll (R.remaining from.old) i buf.new) }
{
    let n = fill(from, buf)?;
    if n < buf.len() { Ok(Some(n)) } else { Ok(None) }
}

// Writes the first n bytes to a stream, if there are as many, and answers whether there are.
pub fn print<W: Write>(to: &mut W, out: &[u8], n: usize) -> io::Result<bool>
    ensures answer { IfOk result (λ b. b ≡ nat_le n (length out.now)) }
    ensures bytes { OnOk result (Appends (W.contents to.old) (W.contents to.new) (front n out.now)) }
{
    if n <= out.len() {
        to.write_all(&out[0..n])?;
        return Ok(true);
    }
    Ok(false)
}
