// Replays a trace: its events are sent to one table, then what the table holds is printed.
#![tactic(auto)]

use std::io;
use std::io::Write;

mod show;

fn send(to: &mut impl Write, mem: &mut [u8], file: &[u8], i: usize) -> io::Result<()> {
    match trace::read(file, i) {
        Err(r) => show::refused(to, r.number()),
        Ok(e) => {
            let topic = text::slice(file, e.topic.start, e.topic.end);
            let payload = text::slice(file, e.payload.start, e.payload.end);
            let o = table::message(mem, e.time, topic, e.retained, payload);
            show::event(to, i, e.time, o)
        }
    }
}

fn send_all(to: &mut impl Write, mem: &mut [u8], file: &[u8], n: usize) -> io::Result<()> {
    for i in 0..n {
        send(to, mem, file, i)?;
    }
    Ok(())
}

// Opens the table `homie` for 4 devices and 3 steps back, and sends it the n events.
fn replay(to: &mut impl Write, file: &[u8], n: usize) -> io::Result<()> {
    let mut mem = [0u8; 65536];
    let _ = table::open(&mut mem, b"homie", 4, 3);
    show::events(to, n)?;
    send_all(to, &mut mem, file, n)?;
    show::devices(to, &mem)?;
    show::steps(to, &mem)
}

fn check(to: &mut impl Write, file: &[u8]) -> io::Result<()> {
    match trace::check(file) {
        Err(r) => show::refused(to, r.number()),
        Ok(n) => replay(to, file, n),
    }
}

// Longer input than 65,536 bytes counts as 1.
fn main(rt: HostRuntime) -> io::Result<()> {
    let mut input = [0u8; 65537];
    let mut to = rt.stdout();
    match lines::read_input(&mut rt.stdin(), &mut input)? {
        Some(n) => check(&mut to, text::slice(&input, 0, n)),
        None => show::refused(&mut to, 1),
    }
}
