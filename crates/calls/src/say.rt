// Answers, written into a lent buffer.
use answer::Refused;
use device::{Declared, Lane};
use questions::States;
use table::Error;
use text::Place;

// A line of another shape.
pub(crate) fn unknown(out: &mut [u8]) -> usize {
    lines::out::put(out, 0, b"?")
}

pub(crate) fn outcome(out: &mut [u8], o: Result<(), Error>) -> usize {
    match o {
        Ok(()) => lines::out::put(out, 0, b"taken"),
        Err(Error::Refused(r)) => refused(out, r),
        Err(Error::Faulty(fault)) => words::refused_at(out, fault.kind.number(), fault.place),
    }
}

fn refused(out: &mut [u8], r: Refused) -> usize {
    words::refused(out, r.number())
}

pub(crate) fn offer(out: &mut [u8], a: Result<u8, Refused>) -> usize {
    match a {
        Ok(n) => lines::number::write(out, 0, u64::from(n)),
        Err(r) => refused(out, r),
    }
}

pub(crate) fn number(out: &mut [u8], a: Result<u32, Refused>) -> usize {
    match a {
        Ok(n) => lines::number::write(out, 0, u64::from(n)),
        Err(r) => refused(out, r),
    }
}

pub(crate) fn time(out: &mut [u8], a: Result<Option<u64>, Refused>) -> usize {
    match a {
        Ok(Some(t)) => lines::number::write(out, 0, t),
        Ok(None) => lines::out::put(out, 0, b"none"),
        Err(r) => refused(out, r),
    }
}

pub(crate) fn id(out: &mut [u8], mem: &[u8], a: Result<Place, Refused>) -> usize {
    match a {
        Ok(place) => words::id(out, 0, mem, place),
        Err(r) => refused(out, r),
    }
}

fn two_states(out: &mut [u8], s: States) -> usize {
    let first = words::state(out, 0, s.own);
    let second = lines::out::put(out, first, b" ");
    let third = words::state(out, second, s.effective);
    let fourth = lines::out::put(out, third, b" ");
    lines::number::write(out, fourth, s.time)
}

// `OWN EFFECTIVE TIME`
pub(crate) fn states(out: &mut [u8], a: Result<States, Refused>) -> usize {
    match a {
        Ok(s) => two_states(out, s),
        Err(r) => refused(out, r),
    }
}

pub(crate) fn relative(out: &mut [u8], mem: &[u8], a: Result<Option<Place>, Refused>) -> usize {
    match a {
        Ok(Some(place)) => words::id(out, 0, mem, place),
        Ok(None) => lines::out::put(out, 0, b"none"),
        Err(r) => refused(out, r),
    }
}

pub(crate) fn version(out: &mut [u8], a: Result<Option<u64>, Refused>) -> usize {
    match a {
        Ok(Some(v)) => words::version(out, v),
        Ok(None) => lines::out::put(out, 0, b"none"),
        Err(r) => refused(out, r),
    }
}

// A space, and the name of a flag that is set, else `-`.
fn flag(out: &mut [u8], at: usize, name: &[u8], set: bool) -> usize {
    let next = lines::out::put(out, at, b" ");
    lines::out::put(out, next, if set { name } else { b"-" })
}

fn names(out: &mut [u8], mem: &[u8], p: Declared) -> usize {
    let first = words::id(out, 0, mem, p.node);
    let second = lines::out::put(out, first, b" ");
    let third = words::id(out, second, mem, p.id);
    lines::out::put(out, third, b" ")
}

fn type_and_format(out: &mut [u8], at: usize, mem: &[u8], p: Declared) -> usize {
    let first = words::datatype(out, at, p.datatype);
    let second = lines::out::put(out, first, b" ");
    words::hex(out, second, mem, p.format)
}

// `NODE PROPERTY TYPE FORMATHEX settable|- retained|-`
pub(crate) fn property(out: &mut [u8], mem: &[u8], a: Result<Declared, Refused>) -> usize {
    match a {
        Ok(p) => {
            let first = names(out, mem, p);
            let second = type_and_format(out, first, mem, p);
            let third = flag(out, second, b"settable", p.settable);
            flag(out, third, b"retained", p.retained)
        }
        Err(r) => refused(out, r),
    }
}

// `TIME PAYLOADHEX`, or `empty`
pub(crate) fn held(out: &mut [u8], mem: &[u8], a: Result<Option<Lane>, Refused>) -> usize {
    match a {
        Ok(Some(lane)) => {
            let first = lines::number::write(out, 0, lane.time);
            let second = lines::out::put(out, first, b" ");
            words::hex(out, second, mem, lane.payload)
        }
        Ok(None) => lines::out::put(out, 0, b"empty"),
        Err(r) => refused(out, r),
    }
}
