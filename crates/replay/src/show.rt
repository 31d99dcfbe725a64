// Lines of the report, each printed as it is made.
// Kept by hand: each is put together in fixed memory and is one write; `writeln!` makes a write of each of its pieces, or needs a buffer on the heap.
use answer::Refused;
use device::Lane;
use rules::LaneKind;
use std::io;
use std::io::Write;
use table::Error;
use text::Place;

// Ends the line at a place, and prints it.
fn finish(to: &mut impl Write, out: &mut [u8], at: usize) -> io::Result<()> {
    let end = lines::out::put(out, at, b"\n");
    lines::print(to, out, end)?;
    Ok(())
}

pub(crate) fn refused(to: &mut impl Write, n: u8) -> io::Result<()> {
    let mut out = [0u8; 32];
    let at = words::refused(&mut out, n);
    finish(to, &mut out, at)
}

// A name and a number.
fn number(to: &mut impl Write, name: &[u8], n: u64) -> io::Result<()> {
    let mut out = [0u8; 32];
    let at = lines::out::put(&mut out, 0, name);
    let end = lines::number::write(&mut out, at, n);
    finish(to, &mut out, end)
}

pub(crate) fn events(to: &mut impl Write, n: usize) -> io::Result<()> {
    number(to, b"events ", n as u64)
}

// The answer to a message, 0 where it is taken.
fn answer(o: Result<(), Error>) -> u64 {
    match o {
        Ok(()) => 0,
        Err(Error::Refused(r)) => u64::from(r.number()),
        Err(Error::Faulty(fault)) => u64::from(fault.kind.number()),
    }
}

pub(crate) fn event(
    to: &mut impl Write,
    i: usize,
    time: u64,
    o: Result<(), Error>,
) -> io::Result<()> {
    let mut out = [0u8; 64];
    let first = lines::number::write(&mut out, 0, i as u64);
    let second = lines::out::put(&mut out, first, b" ");
    let third = lines::number::write(&mut out, second, time);
    let fourth = lines::out::put(&mut out, third, b" ");
    let end = lines::number::write(&mut out, fourth, answer(o));
    finish(to, &mut out, end)
}

// A space, then what a lane holds in hex, or `-`.
fn lane(out: &mut [u8], at: usize, mem: &[u8], held: Result<Option<Lane>, Refused>) -> usize {
    let next = lines::out::put(out, at, b" ");
    match held {
        Ok(Some(lane)) => words::hex(out, next, mem, lane.payload),
        _ => lines::out::put(out, next, b"-"),
    }
}

// The three lanes of a property.
fn lanes(out: &mut [u8], at: usize, mem: &[u8], id: &[u8], node: &[u8], property: &[u8]) -> usize {
    let value = questions::lane_of(mem, id, node, property, LaneKind::Value);
    let first = lane(out, at, mem, value);
    let target = questions::lane_of(mem, id, node, property, LaneKind::Target);
    let second = lane(out, first, mem, target);
    let asked = questions::lane_of(mem, id, node, property, LaneKind::Asked);
    lane(out, second, mem, asked)
}

// The bytes at a place.
fn bytes(mem: &[u8], p: Place) -> &[u8] {
    text::slice(mem, p.start, p.end)
}

fn property(to: &mut impl Write, mem: &[u8], id: &[u8], n: Place, p: Place) -> io::Result<()> {
    let mut out = [0u8; 512];
    let node = bytes(mem, n);
    let name = bytes(mem, p);
    let first = lines::out::put(&mut out, 0, b"property ");
    let second = lines::out::put(&mut out, first, id);
    let third = lines::out::put(&mut out, second, b" ");
    let fourth = lines::out::put(&mut out, third, node);
    let fifth = lines::out::put(&mut out, fourth, b" ");
    let sixth = lines::out::put(&mut out, fifth, name);
    let end = lanes(&mut out, sixth, mem, id, node, name);
    finish(to, &mut out, end)
}

fn properties(to: &mut impl Write, mem: &[u8], id: &[u8]) -> io::Result<()> {
    for i in 0..usize::from(device::PROPERTIES_MOST) {
        let Ok(p) = questions::property_of(mem, id, i) else {
            return Ok(());
        };
        property(to, mem, id, p.node, p.id)?;
    }
    Ok(())
}

fn states(to: &mut impl Write, mem: &[u8], id: &[u8]) -> io::Result<()> {
    let Ok(s) = questions::states_of(mem, id) else {
        return Ok(());
    };
    let mut out = [0u8; 128];
    let first = lines::out::put(&mut out, 0, b"device ");
    let second = lines::out::put(&mut out, first, id);
    let third = lines::out::put(&mut out, second, b" ");
    let fourth = words::state(&mut out, third, s.own);
    let fifth = lines::out::put(&mut out, fourth, b" ");
    let end = words::state(&mut out, fifth, s.effective);
    finish(to, &mut out, end)
}

fn device(to: &mut impl Write, mem: &[u8], i: usize) -> io::Result<()> {
    let Ok(place) = questions::nth(mem, i) else {
        return Ok(());
    };
    let id = bytes(mem, place);
    states(to, mem, id)?;
    properties(to, mem, id)
}

// Each device, and its properties after it.
pub(crate) fn devices(to: &mut impl Write, mem: &[u8]) -> io::Result<()> {
    let Ok(n) = questions::count(mem) else {
        return Ok(());
    };
    for i in 0..n {
        device(to, mem, i as usize)?;
    }
    Ok(())
}

pub(crate) fn steps(to: &mut impl Write, mem: &[u8]) -> io::Result<()> {
    match table::steps(mem) {
        Ok(n) => number(to, b"steps ", u64::from(n)),
        Err(_) => Ok(()),
    }
}
