// Answers, written into a lent buffer.
ghost use Rattle.std.specs.Prelude.{◌+◌, ◌≤◌, ◌++◌, length};
ghost use Rattle.text.specs.Ascii.{ascii};
ghost use Rattle.text.specs.Bytes.{slice};
ghost use Rattle.lines.specs.Number.{decimal_text};
ghost use Rattle.lines.specs.Out.{Adds};
ghost use Rattle.text.specs.Places.{bytes_at};
ghost use Rattle.topic.specs.Meaning.{form_at};
ghost use Rattle.trace.specs.Calls.{meaning_checked, meaning_written, shown};
ghost use Rattle.judge.specs.Parts.{told_text};
ghost use Rattle.judge.specs.Texts.{unknown, yes_or_no, told, events_text, also, three_ids, form_text, flag_text, event_text, used_text};

use answer::Refused;
use faults::Fault;
use text::Place;
use topic::Topic;
use trace::EventAt;

pub(crate) fn unknown(out: &mut [u8]) -> usize
    ensures { Adds out.old 0 unknown result out.new }
{
    lines::out::put(out, 0, b"?")
}

pub(crate) fn yes_or_no(out: &mut [u8], yes: bool) -> usize
    ensures { Adds out.old 0 (yes_or_no yes) result out.new }
{
    if yes {
        return lines::out::put(out, 0, b"yes");
    }
    lines::out::put(out, 0, b"no")
}

// Kept by hand: crate words has this and `refused_at` too, and stands on the rules of the table, on which nothing here does; two functions of a few lines are plainer than those crates below.
pub(crate) fn refused(out: &mut [u8], n: u8) -> usize
    ensures { Adds out.old 0 (ascii "refused " ++ decimal_text n) result out.new }
{
    let at = lines::out::put(out, 0, b"refused ");
    lines::number::write(out, at, n as u64)
}

fn refused_at(out: &mut [u8], n: u8, place: usize) -> usize
    ensures { Adds out.old 0 (ascii "refused " ++ (decimal_text n ++ (ascii " " ++ decimal_text place))) result out.new }
{
    let at = lines::out::put(out, 0, b"refused ");
    let next = lines::number::write(out, at, n as u64);
    let last = lines::out::put(out, next, b" ");
    lines::number::write(out, last, place as u64)
}

pub(crate) fn events(out: &mut [u8], c: Result<usize, Refused>) -> usize
    ensures { Adds out.old 0 (told events_text (meaning_checked c)) result out.new }
{
    match c {
        Err(r) => refused(out, r.number()),
        Ok(n) => {
            let at = lines::out::put(out, 0, b"events ");
            lines::number::write(out, at, n as u64)
        }
    }
}

pub(crate) fn taken(out: &mut [u8], t: Option<Fault>) -> usize
    ensures { Adds out.old 0 (told_text t) result out.new }
{
    match t {
        None => lines::out::put(out, 0, b"yes"),
        Some(fault) => refused_at(out, fault.kind.number(), fault.place),
    }
}

// One more word: a space and the bytes at a place.
fn id(out: &mut [u8], at: usize, topic: &[u8], p: Place) -> usize
    ensures { Adds out.old at (also (bytes_at topic.now p)) result out.new }
{
    let next = lines::out::put(out, at, b" ");
    lines::out::put(out, next, text::slice(topic, p.start, p.end))
}

fn ids(out: &mut [u8], at: usize, topic: &[u8], d: Place, n: Place, p: Place) -> usize
    ensures { Adds out.old at (three_ids (bytes_at topic.now d) (bytes_at topic.now n) (bytes_at topic.now p)) result out.new }
{
    let second = id(out, at, topic, d);
    let third = id(out, second, topic, n);
    id(out, third, topic, p)
}

// A name and one ID.
fn one(out: &mut [u8], name: &[u8], topic: &[u8], d: Place) -> usize
    ensures { Adds out.old 0 (name.now ++ also (bytes_at topic.now d)) result out.new }
{
    let at = lines::out::put(out, 0, name);
    id(out, at, topic, d)
}

// A name and three IDs.
fn property(out: &mut [u8], name: &[u8], topic: &[u8], d: Place, n: Place, p: Place) -> usize
    ensures { Adds out.old 0 (name.now ++ three_ids (bytes_at topic.now d) (bytes_at topic.now n) (bytes_at topic.now p)) result out.new }
{
    let at = lines::out::put(out, 0, name);
    ids(out, at, topic, d, n, p)
}

fn alert(out: &mut [u8], topic: &[u8], d: Place, a: Place) -> usize
    ensures { Adds out.old 0 (ascii "alert" ++ (also (bytes_at topic.now d) ++ also (bytes_at topic.now a))) result out.new }
{
    let at = lines::out::put(out, 0, b"alert");
    let next = id(out, at, topic, d);
    id(out, next, topic, a)
}

// A form's name, then its IDs.
pub(crate) fn form(out: &mut [u8], topic: &[u8], t: Topic) -> usize
    ensures { Adds out.old 0 (form_text (form_at topic.now t)) result out.new }
{
    match t {
        Topic::State { device } => one(out, b"state", topic, device),
        Topic::Description { device } => one(out, b"description", topic, device),
        Topic::Value {
            device,
            node,
            property: p,
        } => property(out, b"value", topic, device, node, p),
        Topic::Set {
            device,
            node,
            property: p,
        } => property(out, b"set", topic, device, node, p),
        Topic::Target {
            device,
            node,
            property: p,
        } => property(out, b"target", topic, device, node, p),
        Topic::Alert { device, name } => alert(out, topic, device, name),
        Topic::Log { device, .. } => one(out, b"log", topic, device),
        Topic::Broadcast { .. } => lines::out::put(out, 0, b"broadcast"),
        Topic::Other { device, .. } => one(out, b"other", topic, device),
    }
}

fn flag(out: &mut [u8], at: usize, retained: bool) -> usize
    ensures { Adds out.old at (flag_text retained) result out.new }
{
    if retained {
        return lines::out::put(out, at, b" 1 ");
    }
    lines::out::put(out, at, b" 0 ")
}

pub(crate) fn event(out: &mut [u8], file: &[u8], e: EventAt) -> usize
    ensures { Adds out.old 0 (event_text (shown file.now e)) result out.new }
{
    let at = lines::number::write(out, 0, e.time);
    let topic = lines::out::put(out, at, b" ");
    let next = lines::hex::encode(out, topic, text::slice(file, e.topic.start, e.topic.end));
    let payload = flag(out, next, e.retained);
    lines::hex::encode(
        out,
        payload,
        text::slice(file, e.payload.start, e.payload.end),
    )
}

// The length of a trace that was appended to, and the whole buffer.
pub(crate) fn used(out: &mut [u8], buffer: &[u8], w: Result<usize, Refused>) -> usize
    ensures { Adds out.old 0 (told (used_text buffer.now) (meaning_written w)) result out.new }
{
    match w {
        Err(r) => refused(out, r.number()),
        Ok(n) => {
            let at = lines::out::put(out, 0, b"used ");
            let next = lines::number::write(out, at, n as u64);
            let last = lines::out::put(out, next, b" ");
            lines::hex::encode(out, last, buffer)
        }
    }
}
