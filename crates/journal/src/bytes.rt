// Bytes read, written, copied and moved.
ghost use Rattle.std.specs.Prelude.{◌≡◌, ◌⊎◌, ◌+◌, ◌≤◌, ◌<◌, min, length, get_or, set};
ghost use Rattle.memory.specs.Bytes.{span, move};
ghost use Rattle.little_endian.specs.Bytes.{u16};
ghost use Rattle.memory.specs.Layout.{most, head_size, capacity};
ghost use Rattle.journal.specs.Parts.{Over};

use memory::{CAPACITY, HEAD_SIZE};

// The byte at a place, or the limit that it is past.
pub(crate) fn byte_at(mem: &[u8], a: usize, limit: u8) -> u8
    requires { a < length mem.now }
    ensures { result ≡ min (get_or mem.now a 0) limit }
{
    mem[a].min(limit)
}

// The number in two bytes, or the limit that it is past.
pub(crate) fn number_at(mem: &[u8], a: usize, limit: usize) -> usize
    ensures { result ≡ min (u16 mem.now a) limit }
{
    (little_endian::get(mem, a, 2) as usize).min(limit)
}

// A copy of a head, with at most D devices.
// Kept by hand: no heap, so a head by value is an array of its 24 bytes.
pub(crate) fn head_at(mem: &[u8], a: usize) -> [u8; HEAD_SIZE]
    requires { a + head_size ≤ length mem.now }
    ensures { result ≡ set (span mem.now a head_size) 0 (min (get_or mem.now a 0) (capacity mem.now)) }
{
    let mut head = [0u8; HEAD_SIZE];
    head.copy_from_slice(&mem[a..a + HEAD_SIZE]);
    head[0] = byte_at(mem, a, mem[CAPACITY]);
    head
}

pub(crate) fn write(mem: &mut [u8], bytes: &[u8], to: usize)
    requires { to + length bytes.now ≤ length mem.old }
    ensures { Over mem.old (λ i. get_or bytes.now i 0) to (length bytes.now) mem.new }
{
    mem[to..to + bytes.len()].copy_from_slice(bytes);
}

pub(crate) fn copy(mem: &mut [u8], from: usize, to: usize, n: usize)
    requires n_in_bounds { (from + n ≤ length mem.old) × (to + n ≤ length mem.old) }
    requires fact { (from + n ≤ to) ⊎ (to + n ≤ from) }
    ensures { Over mem.old (λ i. get_or mem.old (from + i) 0) to n mem.new }
{
    mem.copy_within(from..from + n, to);
}

pub(crate) fn clear(room: &mut [u8])
    ensures { Over room.old (λ _. 0) 0 (length room.old) room.new }
{
    room.fill(0);
}

// 0, 1, 2, ..
pub(crate) fn number(order: &mut [u8])
    requires { length order.old ≤ most }
    ensures { Over order.old (λ i. i) 0 (length order.old) order.new }
{
    for i in 0..order.len() {
        order[i] = i as u8;
    }
}

// The element at a place moves to another, and those between make room.
pub(crate) fn shift(order: &mut [u8], from: usize, to: usize)
    requires { (from < length order.old) × (to < length order.old) }
    ensures { order.new ≡ move 0 from to order.old }
{
    if from < to {
        order[from..=to].rotate_left(1);
    } else {
        order[to..=from].rotate_right(1);
    }
}
