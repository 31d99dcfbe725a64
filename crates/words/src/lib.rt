// What a table answers, as words of a line.
#![tactic(auto)]

ghost use Rattle.std.specs.Prelude.{◌≡◌};
ghost use Rattle.lines.specs.Hex.{hex_of};
ghost use Rattle.lines.specs.Out.{Puts, Adds};
ghost use Rattle.payload.specs.Datatypes.{name_of};
ghost use Rattle.rules.specs.States.{word_of};
ghost use Rattle.text.specs.Places.{bytes_at};
ghost use Rattle.words.specs.Words.{refusal, refusal_at, signed};

use payload::Datatype;
use rules::DeviceState;
use text::Place;

// The word of a state.
fn state_word(s: DeviceState) -> &'static [u8]
    ensures { result.now ≡ word_of s }
{
    match s {
        DeviceState::Init => b"init",
        DeviceState::Ready => b"ready",
        DeviceState::Disconnected => b"disconnected",
        DeviceState::Sleeping => b"sleeping",
        DeviceState::Lost => b"lost",
    }
}

pub fn state(out: &mut [u8], at: usize, s: DeviceState) -> usize
    ensures { Puts out.old at (word_of s) result out.new }
{
    lines::out::put(out, at, state_word(s))
}

// The name of a datatype.
fn datatype_name(d: Datatype) -> &'static [u8]
    ensures { result.now ≡ name_of d }
{
    match d {
        Datatype::String => b"string",
        Datatype::Integer => b"integer",
        Datatype::Float => b"float",
        Datatype::Boolean => b"boolean",
        Datatype::Enum => b"enum",
        Datatype::Color => b"color",
        Datatype::Datetime => b"datetime",
        Datatype::Duration => b"duration",
        Datatype::Json => b"json",
    }
}

pub fn datatype(out: &mut [u8], at: usize, d: Datatype) -> usize
    ensures { Puts out.old at (name_of d) result out.new }
{
    lines::out::put(out, at, datatype_name(d))
}

// The bytes at a place, as they are.
pub fn id(out: &mut [u8], at: usize, mem: &[u8], p: Place) -> usize
    ensures { Puts out.old at (bytes_at mem.now p) result out.new }
{
    lines::out::put(out, at, text::slice(mem, p.start, p.end))
}

// The bytes at a place, in hex.
pub fn hex(out: &mut [u8], at: usize, mem: &[u8], p: Place) -> usize
    ensures { Puts out.old at (hex_of (bytes_at mem.now p)) result out.new }
{
    lines::hex::encode(out, at, text::slice(mem, p.start, p.end))
}

// `refused` and the number.
pub fn refused(out: &mut [u8], n: u8) -> usize
    ensures { Adds out.old 0 (refusal n) result out.new }
{
    let at = lines::out::put(out, 0, b"refused ");
    lines::number::write(out, at, n as u64)
}

// The same, and the place.
pub fn refused_at(out: &mut [u8], n: u8, place: usize) -> usize
    ensures { Adds out.old 0 (refusal_at n place) result out.new }
{
    let at = refused(out, n);
    let next = lines::out::put(out, at, b" ");
    lines::number::write(out, next, place as u64)
}

// The number that is shown plus 2^63.
pub fn version(out: &mut [u8], v: u64) -> usize
    ensures { Adds out.old 0 (signed v) result out.new }
{
    if v >= 9223372036854775808 {
        return lines::number::write(out, 0, v - 9223372036854775808);
    }
    let at = lines::out::put(out, 0, b"-");
    lines::number::write(out, at, 9223372036854775808 - v)
}
