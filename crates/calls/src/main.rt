// A list of calls on one table: a call on each line of standard input, its answer on a line of standard output.
#![tactic(auto)]

use opening::Opening;
use std::alloc::{AllocError, Global};
use std::io;
use std::io::Write;
use text::Part;

mod call;
mod decode;
mod opening;
mod say;

fn input_space(alloc: Global) -> Result<Vec<u8>, AllocError> {
    vec![in alloc; 0u8; 1048577]
}

// Half as many bytes as the longest input: for all words of a line that are hex.
fn word_space(alloc: Global) -> Result<Vec<u8>, AllocError> {
    vec![in alloc; 0u8; 524288]
}

// 8,192·129 + 64 bytes: the most that a list may ask for.
fn memory(alloc: Global) -> Result<Vec<u8>, AllocError> {
    vec![in alloc; 0u8; 1056832]
}

// Ends a line with n bytes, and prints it.
fn finish(to: &mut impl Write, out: &mut [u8], n: usize) -> io::Result<()> {
    let end = lines::out::put(out, n, b"\n");
    lines::print(to, out, end)?;
    Ok(())
}

fn answer_line(
    to: &mut impl Write,
    mem: &mut [u8],
    line: &[u8],
    space: &mut [u8],
) -> io::Result<()> {
    let mut out = [0u8; 1024];
    let n = call::answer(mem, line, space, &mut out);
    finish(to, &mut out, n)
}

// Answers each line; the last one may lack its line feed.
fn answer_all(
    to: &mut impl Write,
    mem: &mut [u8],
    input: &[u8],
    space: &mut [u8],
) -> io::Result<()> {
    let mut at: usize = 0;
    while at < input.len() {
        let Some(Part { start, end, next }) = text::next_part(input, at, b'\n') else {
            return Ok(());
        };
        answer_line(to, mem, text::slice(input, start, end), space)?;
        at = next;
    }
    Ok(())
}

// Answers a line before the opening: there is no memory that could be sound.
fn answer_early(to: &mut impl Write, line: &[u8], space: &mut [u8]) -> io::Result<()> {
    let mut nothing = [0u8; 0];
    answer_line(to, &mut nothing, line, space)
}

// Answers the lines before the opening, and where it stands.
fn before(to: &mut impl Write, input: &[u8], space: &mut [u8]) -> io::Result<usize> {
    let mut at: usize = 0;
    while at < input.len() {
        let Some(Part { start, end, next }) = text::next_part(input, at, b'\n') else {
            return Ok(at);
        };
        let line = text::slice(input, start, end);
        if opening::is_one(line, space) {
            return Ok(at);
        }
        answer_early(to, line, space)?;
        at = next;
    }
    Ok(at)
}

fn open(to: &mut impl Write, mem: &mut [u8], domain: &[u8], d: usize, j: usize) -> io::Result<()> {
    let mut out = [0u8; 32];
    let n = say::outcome(&mut out, table::open(mem, domain, d, j));
    finish(to, &mut out, n)
}

// Opens the table, and answers the lines after the opening: a second one has no answer.
fn opened(
    to: &mut impl Write,
    mem: &mut [u8],
    asked: Opening,
    input: &[u8],
    space: &mut [u8],
) -> io::Result<()> {
    let domain = text::slice(space, 0, asked.domain);
    open(to, mem, domain, asked.d, asked.j)?;
    answer_all(to, mem, input, space)
}

// The same on the first bytes of the memory, as many as were asked for.
fn lend(
    to: &mut impl Write,
    mem: &mut [u8],
    asked: Opening,
    input: &[u8],
    space: &mut [u8],
) -> io::Result<()> {
    if asked.size > mem.len() {
        return Ok(());
    }
    opened(to, &mut mem[..asked.size], asked, input, space)
}

// The input from the opening on.
fn after(alloc: Global, to: &mut impl Write, input: &[u8], space: &mut [u8]) -> io::Result<()> {
    let Some(Part { start, end, next }) = text::next_part(input, 0, b'\n') else {
        return Ok(());
    };
    let Some(asked) = opening::read(text::slice(input, start, end), space) else {
        return Ok(());
    };
    let mut mem = memory(alloc)?;
    lend(
        to,
        mem.as_mut_slice(),
        asked,
        text::slice(input, next, input.len()),
        space,
    )
}

fn answer(alloc: Global, to: &mut impl Write, input: &[u8]) -> io::Result<()> {
    let mut lent = word_space(alloc)?;
    let space = lent.as_mut_slice();
    let at = before(to, input, space)?;
    after(alloc, to, text::slice(input, at, input.len()), space)
}

fn main(rt: HostRuntime) -> io::Result<()> {
    let mut input = input_space(rt.alloc())?;
    let mut to = rt.stdout();
    match lines::read_input(&mut rt.stdin(), input.as_mut_slice())? {
        Some(n) => answer(rt.alloc(), &mut to, text::slice(input.as_slice(), 0, n)),
        None => to.write_all(b"too long\n"),
    }
}
