// Questions about the table that lent memory holds. Each answers 6 where memory is not sound, and alters nothing.
#![tactic(auto)]

ghost use Rattle.std.specs.Prelude.{◌≡◌, ◌+◌, ◌^◌, ◌≤◌, ◌<◌, length};
ghost use Rattle.answer.specs.Answer.{gives};
ghost use Rattle.memory.specs.Layout.{room_size};
ghost use Rattle.rules.specs.Find.{find};
ghost use Rattle.rules.specs.Questions.{ask_count, ask_nth, ask_states, ask_root, ask_parent, ask_version, ask_filled, ask_property, ask_lane, ask_last, found_lost, effective};
ghost use Rattle.device.specs.Decode.{device_of};
ghost use Rattle.device.specs.Meaning.{text_in, Inside, shifted};
ghost use Rattle.lookup.specs.Meaning.{Sound, devices_in};
ghost use Rattle.book.specs.Book.{question};
ghost use Rattle.lookup.specs.Contract.{Did};
ghost use Rattle.questions.specs.Meaning.{says_number, says_states, says_version, says_time, AskedId, AskedRelative, AskedProperty, AskedHeld};
ghost use Rattle.questions.specs.Parts.{room_from, device_from, Seeks, states_of, ShowsId, ShowsRelative, ShowsProperty, ShowsLane};

use answer::Refused;
use device::{Declared, Lane};
use memory::ROOM;
use rules::{DeviceState, LaneKind};
use text::Place;

// A device's own and effective state, and the time of its own.
#[derive(Clone, Copy)]
pub struct States {
    pub own: DeviceState,
    pub effective: DeviceState,
    pub time: u64,
}

// In sound memory, where the room of the device of an ID starts.
fn locate(mem: &[u8], id: &[u8]) -> Result<usize, Refused>
    requires { Sound mem.now }
    ensures { Seeks mem.now id.now result }
{
    let rank = lookup::find(mem, id);
    if rank >= lookup::count(mem) {
        return Err(Refused::NoDevice);
    }
    Ok(memory::room_start(mem, rank))
}

fn seek(mem: &[u8], id: &[u8]) -> Result<usize, Refused>
    ensures { Seeks mem.now id.now result }
{
    if !lookup::sound(mem) {
        return Err(Refused::NotSound);
    }
    locate(mem, id)
}

// A place of a room as a place of the memory.
fn moved(p: Place, start: usize) -> Place
    requires { (p.start ≤ p.end) × (start + p.end < 2 ^ 64) }
    ensures { result ≡ shifted start p }
{
    Place {
        start: start + p.start,
        end: start + p.end,
    }
}

// The room that starts at a place.
// Kept by hand: no conversion, since it reads at a place.
fn room_at(mem: &[u8], start: usize) -> &[u8]
    requires { start + room_size ≤ length mem.now }
    ensures { result.now ≡ room_from mem.now start }
{
    &mem[start..start + ROOM]
}

// How many devices there are.
pub fn count(mem: &[u8]) -> Result<u32, Refused>
    ensures { Did (question ask_count) mem.now mem.now (says_number result) }
{
    if !lookup::sound(mem) {
        return Err(Refused::NotSound);
    }
    Ok(u32::from(lookup::count(mem)))
}

fn id_in(mem: &[u8], start: usize) -> Place
    requires { start + room_size ≤ length mem.now }
    ensures { ShowsId mem.now start result }
{
    let p = device::id(room_at(mem, start));
    moved(p, start)
}

// The ID of the i-th device, from 0, by ascending ID bytes.
pub fn nth(mem: &[u8], i: usize) -> Result<Place, Refused>
    ensures { AskedId (ask_nth i) mem.now result }
{
    if !lookup::sound(mem) {
        return Err(Refused::NotSound);
    }
    let devices = usize::from(lookup::count(mem));
    if i >= devices {
        return Err(Refused::NoSuchNumber);
    }
    let start = memory::room_start(mem, i as u8);
    Ok(id_in(mem, start))
}

fn is_lost_in(room: &[u8]) -> bool
    ensures { result ≡ found_lost (gives (device_of room.now)) }
{
    matches!(device::state(room), DeviceState::Lost)
}

// Whether a device of this ID is there and its own state is `lost`.
fn is_lost(mem: &[u8], id: &[u8]) -> bool
    requires { Sound mem.now }
    ensures { result ≡ found_lost (find id.now (devices_in mem.now)) }
{
    match locate(mem, id) {
        Err(_) => false,
        Ok(start) => is_lost_in(room_at(mem, start)),
    }
}

// The effective state of the device in a room: `lost` if its root is there and is lost.
fn effective_in(mem: &[u8], room: &[u8]) -> DeviceState
    requires { Sound mem.now }
    ensures { result ≡ effective (devices_in mem.now) (device_of room.now) }
{
    let own = device::state(room);
    let Some(root) = device::root(room) else {
        return own;
    };
    if is_lost(mem, &room[root.start..root.end]) {
        DeviceState::Lost
    } else {
        own
    }
}

fn states_in(mem: &[u8], start: usize) -> States
    requires { Sound mem.now × (start + room_size ≤ length mem.now) }
    ensures { says_states (Ok result) ≡ states_of (devices_in mem.now) (device_from mem.now start) }
{
    let room = room_at(mem, start);
    let own = device::state(room);
    let effective = effective_in(mem, room);
    let time = device::time(room);
    States {
        own,
        effective,
        time,
    }
}

// The own and the effective state of a device, and the time of its own.
pub fn states_of(mem: &[u8], id: &[u8]) -> Result<States, Refused>
    ensures { Did (question (ask_states id.now)) mem.now mem.now (says_states result) }
{
    let start = seek(mem, id)?;
    Ok(states_in(mem, start))
}

fn relative_in(mem: &[u8], start: usize, t: Option<Place>) -> Option<Place>
    requires { (start + room_size ≤ length mem.now) × Inside room_size t }
    ensures { ShowsRelative mem.now (text_in (room_from mem.now start) t) result }
{
    let p = t?;
    Some(moved(p, start))
}

// Kept by hand: `root_of` and `parent_of` are two calls of C with a question of their own each in their contracts; what they share is `relative_in`.
// The root of a device, as its description names it.
pub fn root_of(mem: &[u8], id: &[u8]) -> Result<Option<Place>, Refused>
    ensures { AskedRelative (ask_root id.now) mem.now result }
{
    let start = seek(mem, id)?;
    let room = room_at(mem, start);
    Ok(relative_in(mem, start, device::root(room)))
}

// The parent of a device, as its description names it.
pub fn parent_of(mem: &[u8], id: &[u8]) -> Result<Option<Place>, Refused>
    ensures { AskedRelative (ask_parent id.now) mem.now result }
{
    let start = seek(mem, id)?;
    let room = room_at(mem, start);
    Ok(relative_in(mem, start, device::parent(room)))
}

// The version of a device's description: its number is shown plus 2^63.
pub fn version_of(mem: &[u8], id: &[u8]) -> Result<Option<u64>, Refused>
    ensures { Did (question (ask_version id.now)) mem.now mem.now (says_version result) }
{
    Ok(device::version_of(room_at(mem, seek(mem, id)?)))
}

// How many properties of a device hold a value.
pub fn filled_of(mem: &[u8], id: &[u8]) -> Result<u32, Refused>
    ensures { Did (question (ask_filled id.now)) mem.now mem.now (says_number result) }
{
    Ok(device::filled(room_at(mem, seek(mem, id)?)))
}

fn property_in(mem: &[u8], start: usize, i: usize) -> Result<Declared, Refused>
    requires { start + room_size ≤ length mem.now }
    ensures { ShowsProperty mem.now start i result }
{
    let room = room_at(mem, start);
    let n = usize::from(device::properties(room));
    if i >= n {
        return Err(Refused::NoSuchNumber);
    }
    let p = device::property_at(room, i as u8).declared;
    let node = moved(p.node, start);
    let id = moved(p.id, start);
    let format = moved(p.format, start);
    Ok(Declared {
        node,
        id,
        format,
        ..p
    })
}

// The i-th property of a device, from 0, by node ID, then property ID.
pub fn property_of(mem: &[u8], id: &[u8], i: usize) -> Result<Declared, Refused>
    ensures { AskedProperty (ask_property id.now i) mem.now result }
{
    let start = seek(mem, id)?;
    property_in(mem, start, i)
}

fn lane_in(
    mem: &[u8],
    start: usize,
    node: &[u8],
    property: &[u8],
    kind: LaneKind,
) -> Result<Option<Lane>, Refused>
    requires { start + room_size ≤ length mem.now }
    ensures { ShowsLane mem.now start node.now property.now kind result }
{
    let room = room_at(mem, start);
    let i = device::find_property(room, node, property);
    if i >= device::properties(room) {
        return Err(Refused::NoProperty);
    }
    let Some(lane) = device::lane_of(device::property_at(room, i), kind) else {
        return Ok(None);
    };
    let payload = moved(lane.payload, start);
    Ok(Some(Lane { payload, ..lane }))
}

// What a lane of a property holds.
pub fn lane_of(
    mem: &[u8],
    id: &[u8],
    node: &[u8],
    property: &[u8],
    kind: LaneKind,
) -> Result<Option<Lane>, Refused>
    ensures { AskedHeld (ask_lane id.now node.now property.now kind) mem.now result }
{
    let start = seek(mem, id)?;
    lane_in(mem, start, node, property, kind)
}

// The time of the last message that stands.
pub fn last_time(mem: &[u8]) -> Result<Option<u64>, Refused>
    ensures { Did (question ask_last) mem.now mem.now (says_time result) }
{
    if !lookup::sound(mem) {
        return Err(Refused::NotSound);
    }
    Ok(lookup::last(mem))
}
