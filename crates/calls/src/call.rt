// A line's call: its words read, and made on the table.
use super::{decode, say};
use rules::LaneKind;
use text::Place;

// `count`, `steps`, `last`, `back`
fn one(mem: &mut [u8], verb: &[u8], out: &mut [u8]) -> usize {
    if text::same(verb, b"count") {
        return say::number(out, questions::count(mem));
    }
    if text::same(verb, b"steps") {
        return say::offer(out, table::steps(mem));
    }
    if text::same(verb, b"last") {
        return say::time(out, questions::last_time(mem));
    }
    if text::same(verb, b"back") {
        return say::outcome(out, table::step_back(mem));
    }
    say::unknown(out)
}

// `nth I`
fn nth(mem: &[u8], place: &[u8], out: &mut [u8]) -> usize {
    let Some(i) = lines::number::read(place) else {
        return say::unknown(out);
    };
    say::id(out, mem, questions::nth(mem, i as usize))
}

// `state`, `root`, `parent`, `version`, `filled`
fn of_device(mem: &[u8], verb: &[u8], id: &[u8], out: &mut [u8]) -> usize {
    if text::same(verb, b"state") {
        return say::states(out, questions::states_of(mem, id));
    }
    if text::same(verb, b"root") {
        return say::relative(out, mem, questions::root_of(mem, id));
    }
    if text::same(verb, b"parent") {
        return say::relative(out, mem, questions::parent_of(mem, id));
    }
    if text::same(verb, b"version") {
        return say::version(out, questions::version_of(mem, id));
    }
    if text::same(verb, b"filled") {
        return say::number(out, questions::filled_of(mem, id));
    }
    say::unknown(out)
}

// A line of two words.
fn two(mem: &[u8], line: &[u8], space: &mut [u8], out: &mut [u8]) -> usize {
    let verb = lines::word::at(line, 0);
    if text::same(verb, b"nth") {
        return nth(mem, lines::word::at(line, 1), out);
    }
    let Some(place) = decode::word(line, 1, space, 0) else {
        return say::unknown(out);
    };
    of_device(mem, verb, decode::bytes(space, place), out)
}

// `property IDHEX I`
fn three(mem: &[u8], line: &[u8], space: &mut [u8], out: &mut [u8]) -> usize {
    if !text::same(lines::word::at(line, 0), b"property") {
        return say::unknown(out);
    }
    let Some(place) = decode::word(line, 1, space, 0) else {
        return say::unknown(out);
    };
    let Some(i) = lines::number::read(lines::word::at(line, 2)) else {
        return say::unknown(out);
    };
    let p = questions::property_of(mem, decode::bytes(space, place), i as usize);
    say::property(out, mem, p)
}

fn send(
    mem: &mut [u8],
    time: u64,
    space: &[u8],
    t: Place,
    retained: bool,
    p: Place,
    out: &mut [u8],
) -> usize {
    let o = table::message(
        mem,
        time,
        decode::bytes(space, t),
        retained,
        decode::bytes(space, p),
    );
    say::outcome(out, o)
}

// The topic and the payload of a message.
fn message_of(
    mem: &mut [u8],
    time: u64,
    retained: bool,
    line: &[u8],
    space: &mut [u8],
    out: &mut [u8],
) -> usize {
    let Some(t) = decode::word(line, 2, space, 0) else {
        return say::unknown(out);
    };
    let Some(p) = decode::word(line, 4, space, t.end) else {
        return say::unknown(out);
    };
    send(mem, time, space, t, retained, p, out)
}

// `message TIME TOPICHEX 0|1 PAYLOADHEX`
fn message(mem: &mut [u8], line: &[u8], space: &mut [u8], out: &mut [u8]) -> usize {
    let Some(time) = lines::number::read(lines::word::at(line, 1)) else {
        return say::unknown(out);
    };
    let Some(retained) = lines::flag::read(lines::word::at(line, 3)) else {
        return say::unknown(out);
    };
    message_of(mem, time, retained, line, space, out)
}

fn ask_lane(
    mem: &[u8],
    space: &[u8],
    d: Place,
    n: Place,
    p: Place,
    kind: LaneKind,
    out: &mut [u8],
) -> usize {
    let held = questions::lane_of(
        mem,
        decode::bytes(space, d),
        decode::bytes(space, n),
        decode::bytes(space, p),
        kind,
    );
    say::held(out, mem, held)
}

// The three IDs of a lane of this kind.
fn lane_of(mem: &[u8], line: &[u8], space: &mut [u8], kind: LaneKind, out: &mut [u8]) -> usize {
    let Some(d) = decode::word(line, 1, space, 0) else {
        return say::unknown(out);
    };
    let Some(n) = decode::word(line, 2, space, d.end) else {
        return say::unknown(out);
    };
    let Some(p) = decode::word(line, 3, space, n.end) else {
        return say::unknown(out);
    };
    ask_lane(mem, space, d, n, p, kind, out)
}

// `lane IDHEX NODEHEX PROPHEX value|target|asked`
fn lane(mem: &[u8], line: &[u8], space: &mut [u8], out: &mut [u8]) -> usize {
    let Some(kind) = decode::kind(lines::word::at(line, 4)) else {
        return say::unknown(out);
    };
    lane_of(mem, line, space, kind, out)
}

// A line of five words.
fn five(mem: &mut [u8], line: &[u8], space: &mut [u8], out: &mut [u8]) -> usize {
    let verb = lines::word::at(line, 0);
    if text::same(verb, b"message") {
        return message(mem, line, space, out);
    }
    if text::same(verb, b"lane") {
        return lane(mem, line, space, out);
    }
    say::unknown(out)
}

// The answer to a line that is no opening.
pub(crate) fn answer(mem: &mut [u8], line: &[u8], space: &mut [u8], out: &mut [u8]) -> usize {
    let n = lines::word::count(line);
    if n == 1 {
        return one(mem, line, out);
    }
    if n == 2 {
        return two(mem, line, space, out);
    }
    if n == 3 {
        return three(mem, line, space, out);
    }
    if n == 5 {
        return five(mem, line, space, out);
    }
    say::unknown(out)
}
