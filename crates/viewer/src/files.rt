// Trace files.
ghost use Rattle.std.specs.Prelude.{◌≡◌, [], ◌∷◌, ◌++◌};
ghost use Rattle.trace.specs.Calls.{Read};
ghost use Rattle.cursor.specs.Cursor.{Stepped};
ghost use Rattle.reply.specs.Reply.{Told, Replied};
ghost use Rattle.reply.specs.Files.{show_checked, event_values, show_reading, step_reply, show_step, show_written};
ghost use Rattle.viewer.specs.Promises.{Checks, Empties, Appends};

use answer::Refused;
use trace::EventAt;

// Checks a whole trace: its event count.
#[unsafe(no_mangle)]
pub extern "C" fn homie5_trace_check(file: &[u8], out: &mut [u64]) -> u32
    ensures { Told (Checks file.now) show_checked out.old result out.new }
{
    reply::files::tell_count(out, trace::check(file))
}

// An event's values, and a place.
fn event_values(e: EventAt, at: usize) -> [u64; 7]
    ensures { result ≡ event_values e ++ (at ∷ []) }
{
    [
        e.time,
        e.topic.start as u64,
        e.topic.end as u64,
        u64::from(e.retained),
        e.payload.start as u64,
        e.payload.end as u64,
        at as u64,
    ]
}

fn tell_reading(out: &mut [u64], a: Result<EventAt, Refused>) -> u32
    ensures { Replied (show_reading a) out.old result out.new }
{
    match a {
        Err(r) => u32::from(r.number()),
        Ok(e) => {
            let vs = event_values(e, 0);
            reply::tell(out, &vs[..6])
        }
    }
}

// Reads the event of a number, from 0.
#[unsafe(no_mangle)]
pub extern "C" fn homie5_trace_read(file: &[u8], i: usize, out: &mut [u64]) -> u32
    ensures { Told (Read file.now i) show_reading out.old result out.new }
{
    tell_reading(out, trace::read(file, i))
}

fn tell_step(out: &mut [u64], a: Result<EventAt, Refused>, at: usize) -> u32
    ensures { Replied (step_reply a at) out.old result out.new }
{
    match a {
        Err(r) => u32::from(r.number()),
        Ok(e) => {
            let vs = event_values(e, at);
            reply::tell(out, &vs)
        }
    }
}

// Reads the event at a reading place, and where the place is then.
#[unsafe(no_mangle)]
pub extern "C" fn homie5_trace_next(file: &[u8], place: usize, out: &mut [u64]) -> u32
    ensures { Told (Stepped file.now place) show_step out.old result out.new }
{
    let cursor::Step { reading, at } = cursor::next_from(file, place);
    tell_step(out, reading, at)
}

// Writes the empty trace into a lent buffer: its length.
#[unsafe(no_mangle)]
pub extern "C" fn homie5_trace_empty(buf: &mut [u8], out: &mut [u64]) -> u32
    ensures { Told (Empties buf.old buf.new) show_written out.old result out.new }
{
    reply::files::tell_count(out, trace::write_empty(buf))
}

// Appends an event to the trace in the first `used` bytes of a lent buffer: the new length.
#[unsafe(no_mangle)]
pub extern "C" fn homie5_trace_append(
    buf: &mut [u8],
    used: usize,
    time: u64,
    topic: &[u8],
    retained: u8,
    payload: &[u8],
    out: &mut [u64],
) -> u32
    ensures { Told (Appends buf.old used time topic.now retained payload.now buf.new) show_written out.old result out.new }
{
    let a = trace::append(buf, used, time, topic, retained != 0, payload);
    reply::files::tell_count(out, a)
}
