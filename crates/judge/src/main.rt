// Judges byte strings: a question on each line of standard input, its answer on a line of standard output.
#![tactic(auto)]

ghost use Rattle.std.specs.Prelude.{◌≤◌, length};

use std::io;
use std::io::Write;
use text::Part;

mod question;
mod say;

// Answers each line; the last one may lack its line feed.
fn answer_all(to: &mut impl Write, input: &[u8]) -> io::Result<()>
    requires { length input.now ≤ 65536 }
{
    let mut out = lines::large_buffer();
    let mut at: usize = 0;
    while at < input.len() {
        let Some(Part { start, end, next }) = text::next_part(input, at, b'\n') else {
            return Ok(());
        };
        let n = question::answer(&input[start..end], &mut out);
        let k = lines::out::put(&mut out, n, b"\n");
        lines::print(to, &out, k)?;
        at = next;
    }
    Ok(())
}

fn main(rt: HostRuntime) -> io::Result<()> {
    let mut input = [0u8; 65537];
    let mut to = rt.stdout();
    match lines::read_input(&mut rt.stdin(), &mut input)? {
        Some(n) => answer_all(&mut to, &input[0..n]),
        None => to.write_all(b"too long\n"),
    }
}
