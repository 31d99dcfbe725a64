// The bytes that change a device's room: its state, a lane, a new device, no description. What they make of the device is said by meaning,
// for every room that they are put in.
#![tactic(auto)]

// Kept by hand: `state`, `new_device`, `no_description` and `lane` give arrays of a fixed size, since there is no heap; each is written whole, so that no length stands beside it.

ghost use Rattle.std.specs.Prelude.{◌+◌, ◌<◌, ◌≤◌, ◌≡◌, length, take};
ghost use Rattle.little_endian.specs.Bytes.{put};
ghost use Rattle.rules.specs.Messages.{with_state, new_device, with_description};
ghost use Rattle.text.specs.Ids.{id_most};
ghost use Rattle.device.specs.Layout.{state_code_at, described_at, id_at, lane_at, payload_most};
ghost use Rattle.device.specs.Meaning.{lane_number};
ghost use Rattle.patch.specs.Makes.{Makes, LaneMakes, LaneSet, held_since};
ghost use Rattle.patch.specs.Parts.{text_bytes};

use device::{
    ID, LANE, LANES, PAYLOAD, PAYLOAD_MOST, RECORD, RECORDS, ROOT, STATE, TIME, lane_number,
};
use rules::{DeviceState, LaneKind, state_code};

// In the bytes of a state, its number first: where its time stands, and their number.
const STATE_TIME: usize = TIME - STATE;

pub const STATE_SIZE: usize = STATE_TIME + 8;

// Writes a byte string, cut to `most` bytes: a length byte, then the bytes.
fn write_text(d: &mut [u8], at: usize, s: &[u8], most: usize)
    requires { (at + 1 + most ≤ length d.old) × (most < 256) }
    ensures { d.new ≡ put d.old at (text_bytes (take most s.now)) }
{
    let n = s.len().min(most);
    d[at] = n as u8;
    d[at + 1..at + 1 + n].copy_from_slice(&s[..n]);
}

// The device has this state since this time.
pub fn state(s: DeviceState, time: u64) -> [u8; STATE_SIZE]
    ensures { Makes state_code_at result (with_state s time) }
{
    let mut bytes = [0u8; STATE_SIZE];
    bytes[0] = state_code(s);
    little_endian::set(&mut bytes, STATE_TIME, 8, time);
    bytes
}

// A device with this ID, cut to 32 bytes, in this state since this time, without a description: whatever the room held.
// The bytes before the description are all written, those that are spare too.
pub fn new_device(id: &[u8], s: DeviceState, time: u64) -> [u8; ROOT]
    ensures { Makes id_at result (λ _. new_device (take id_most id.now) s time) }
{
    let mut bytes = [0u8; ROOT];
    write_text(&mut bytes, ID, id, text::Id::MAX);
    bytes[STATE] = state_code(s);
    little_endian::set(&mut bytes, TIME, 8, time);
    bytes
}

// The device has no description.
pub fn no_description() -> [u8; 1]
    ensures { Makes described_at result (with_description None) }
{
    [0]
}

// A lane holds this payload, cut to 48 bytes, with this time; it is empty if the payload is.
pub fn lane(time: u64, payload: &[u8]) -> [u8; LANE]
    ensures { LaneMakes result (held_since time (take payload_most payload.now)) }
{
    let mut bytes = [0u8; LANE];
    little_endian::set(&mut bytes, 0, 8, time);
    write_text(&mut bytes, PAYLOAD, payload, PAYLOAD_MOST);
    bytes
}

// Where a lane of the i-th property starts in the room.
pub fn lane_offset(i: u8, kind: LaneKind) -> usize
    ensures { result ≡ lane_at i (lane_number kind) }
{
    RECORDS + RECORD * usize::from(i) + LANES + LANE * lane_number(kind)
}

// A lane of the i-th property written into the room itself; where it does not lie inside, nothing is.
pub fn set_lane(room: &mut [u8], i: u8, kind: LaneKind, time: u64, payload: &[u8])
    ensures { LaneSet room.old i kind (held_since time (take payload_most payload.now)) room.new }
{
    let bytes = lane(time, payload);
    let at = lane_offset(i, kind);
    if at + LANE <= room.len() {
        room[at..at + LANE].copy_from_slice(&bytes);
    }
}
