// The table that lent memory holds: whether it is sound, its devices by rank and by ID. Every answer but the first is about what memory means,
// sound or not: past its end every byte reads as 0.
#![tactic(auto)]

ghost use Rattle.std.specs.Prelude.{◌≡◌, true, false, ◌^◌, ◌<◌, length, get_or};
ghost use Rattle.text.specs.Bytes.{eq_bytes, less_bytes};
ghost use Rattle.memory.specs.Bytes.{span};
ghost use Rattle.memory.specs.State.{order, room_of, state};
ghost use Rattle.rules.specs.Find.{first_at};
ghost use Rattle.text.specs.Ids.{id_most};
ghost use Rattle.device.specs.Decode.{text_at, device_of};
ghost use Rattle.lookup.specs.Meaning.{Sound, last_of, opening_of, means, devices_in};

use memory::HEAD_SIZE;

// The head: see specs/Meaning.antt.
const LAST_FLAG: usize = 1;

const LAST: usize = 2;

// The bytes from a place on, as many as asked for, as far as there are any.
fn cut(mem: &[u8], at: usize, n: usize) -> &[u8]
    ensures { result.now ≡ span mem.now at n }
{
    if mem.len() <= at {
        return &mem[..0];
    }
    if mem.len() - at < n {
        return &mem[at..];
    }
    &mem[at..at + n]
}

// The domain that the table is opened for.
pub fn domain(mem: &[u8]) -> &[u8]
    ensures { result.now ≡ (opening_of mem.now).domain }
{
    let n = memory::byte(mem, memory::DOMAIN_LENGTH);
    cut(mem, memory::DOMAIN, n as usize)
}

// Whether memory is a sound table.
pub fn sound(mem: &[u8]) -> bool
    ensures { (result ≡ true → Sound mem.now) × (result ≡ false → Sound mem.now → ⊥) }
{
    memory::sound(mem) && text::is_id(domain(mem))
}

// How many slots the order has.
fn slots(mem: &[u8]) -> usize
    ensures { (result ≡ length (order mem.now)) × (result < 256) }
{
    let d = memory::byte(mem, memory::CAPACITY);
    cut(mem, memory::ORDER, d as usize).len()
}

// How many devices there are.
pub fn count(mem: &[u8]) -> u8
    ensures { result ≡ length (devices_in mem.now) }
{
    let d = slots(mem);
    let n = memory::byte(mem, memory::HEAD);
    if d < n as usize { d as u8 } else { n }
}

// The room at a place of the order: the devices by rank, then the free ones; empty where there is no such place.
pub fn room(mem: &[u8], i: u8) -> &[u8]
    ensures { result.now ≡ room_of (state mem.now).now i }
{
    if slots(mem) <= i as usize {
        return &mem[..0];
    }
    cut(mem, memory::room_start(mem, i), memory::ROOM)
}

// The ID at a place, as far as there are bytes; a length above the limit reads as the limit.
fn id_from(mem: &[u8], at: usize) -> &[u8]
    requires { at < 2 ^ 30 }
    ensures { result.now ≡ text_at mem.now at id_most }
{
    let n = usize::from(memory::byte(mem, at)).min(text::Id::MAX);
    cut(mem, at + 1, n)
}

// The ID in the room at a place of the order.
// Kept by hand: no conversion, since it reads at a place.
fn id_at(mem: &[u8], i: u8) -> &[u8]
    requires { i < length (order mem.now) }
    ensures { result.now ≡ (device_of (room_of (state mem.now).now i)).id }
{
    id_from(mem, memory::room_start(mem, i))
}

// Whether one byte shows that the ID at a place is another: the one where the last byte would stand.
fn ends_otherwise(mem: &[u8], at: usize, id: &[u8]) -> bool
    requires { at < 2 ^ 30 }
    ensures { result ≡ true → eq_bytes (text_at mem.now at id_most) id.now ≡ false }
{
    let n = id.len();
    let end = at + n;
    n != 0 && end < mem.len() && mem[end] != id[n - 1]
}

// Whether it is this one.
fn has_id(mem: &[u8], i: u8, id: &[u8]) -> bool
    requires { i < length (order mem.now) }
    ensures { result ≡ eq_bytes (device_of (room_of (state mem.now).now i)).id id.now }
{
    let start = memory::room_at(mem[memory::ORDER + i as usize]);
    !ends_otherwise(mem, start, id) && text::same(id_from(mem, start), id)
}

// The rank of the device with an ID; the number of devices where there is none.
pub fn find(mem: &[u8], id: &[u8]) -> u8
    ensures { result ≡ first_at (λ v. eq_bytes v.id id.now) (devices_in mem.now) }
{
    let n = count(mem);
    for i in 0..n {
        if has_id(mem, i, id) {
            return i;
        }
    }
    n
}

// The rank of a new device with an ID: that of the first device with a larger one.
pub fn place_for(mem: &[u8], id: &[u8]) -> u8
    ensures { result ≡ first_at (λ v. less_bytes id.now v.id) (devices_in mem.now) }
{
    let n = count(mem);
    for place in 0..n {
        if text::precedes(id, id_at(mem, place)) {
            return place;
        }
    }
    n
}

// The time of the last message, or none.
pub fn last(mem: &[u8]) -> Option<u64>
    ensures { result ≡ (means mem.now).now.last }
{
    let head = cut(mem, memory::HEAD, HEAD_SIZE);
    if memory::byte(head, LAST_FLAG) == 0 {
        return None;
    }
    Some(little_endian::get(head, LAST, 8))
}

// Kept by hand: an array of the head's size, since there is no heap; it is written whole, so that no length stands beside it.
// The head of a table with n devices and this last time. Free: which value but 0 its flag has, and the 14 bytes behind the time.
pub fn head(n: u8, time: u64) -> [u8; HEAD_SIZE]
    ensures { (get_or result 0 0 ≡ n) × (last_of result ≡ Some time) }
{
    let mut bytes = [0u8; HEAD_SIZE];
    bytes[0] = n;
    bytes[LAST_FLAG] = 1;
    little_endian::set(&mut bytes, LAST, 8, time);
    bytes
}
