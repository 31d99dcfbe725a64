// The ring of entries, the order and the head: what saves, makes and undoes a change.
ghost use Rattle.std.specs.Prelude.{◌≡◌, true, false, suc, ◌+◌, ◌-◌, ◌≤◌, ◌<◌, min, length, set, get_or};
ghost use Rattle.memory.specs.Layout.{next_at, steps_at, head_at, head_size, order_at, entry_size, room_size, capacity, depth, most, image_at};
ghost use Rattle.memory.specs.State.{place, entry};
ghost use Rattle.journal.specs.Parts.{Settled, Noted, Saved, Ready, Changed, turn, saving};
ghost use Rattle.memory.specs.Sound.{Header, Able};

use crate::bytes::{byte_at, copy, head_at, number_at, shift, write};
use memory::{
    CAPACITY, DEPTH, ENTRIES, ENTRY_SIZE, HEAD, HEAD_SIZE, NEXT, ORDER, ROOM, STEPS, room_start,
};

pub(crate) fn next_place(h: u8, j: u8) -> u8
    requires { (h < j) × (j ≤ most) }
    ensures { result ≡ turn h j }
{
    if h + 1 == j { 0 } else { h + 1 }
}

pub(crate) fn place_before(h: u8, j: u8) -> u8
    requires { (h < j) × (j ≤ most) }
    ensures { result ≡ place h j 0 }
{
    if 0 < h { h - 1 } else { j - 1 }
}

pub(crate) fn one_more(n: u8, j: u8) -> u8
    requires { (n ≤ j) × (j ≤ most) }
    ensures { result ≡ min j (suc n) }
{
    j.min(n + 1)
}

pub(crate) fn set_ring(mem: &mut [u8], h: u8, n: u8)
    requires { room_size ≤ length mem.old }
    ensures { mem.new ≡ set (set mem.old next_at h) steps_at n }
{
    mem[NEXT] = h;
    mem[STEPS] = n;
}

// The 32 bytes of an entry: a change turned round, and the head as it is.
pub(crate) fn note(mem: &mut [u8], at: usize, from: u8, to: u8, offset: usize, len: usize)
    requires head_size_bound { (head_at + head_size ≤ at) × (at + entry_size ≤ length mem.old) }
    requires offset_bound { (offset < 65536) × (len < 65536) }
    ensures { Noted mem.old at from to offset len mem.new }
{
    let mut entry = [to, from, 0, 0, 0, 0, 0, 0];
    little_endian::set(&mut entry, 2, 2, offset as u64);
    little_endian::set(&mut entry, 4, 2, len as u64);
    write(mem, &entry, at);
    copy(mem, HEAD, at + 8, HEAD_SIZE);
}

// The head is replaced, and the slot at a place of the order moves to another.
pub(crate) fn settle(mem: &mut [u8], from: u8, to: u8, head: &[u8; HEAD_SIZE])
    requires from_bound { (from < capacity mem.old) × (to < capacity mem.old) }
    requires mem_in_bounds { order_at + capacity mem.old ≤ length mem.old }
    ensures { Settled mem.old head.now (capacity mem.old) from to mem.new }
{
    let end = ORDER + usize::from(mem[CAPACITY]);
    let a = usize::from(from);
    let b = usize::from(to);
    write(mem, head, HEAD);
    shift(&mut mem[ORDER..end], a, b);
}

// Where the step-back room of a place starts.
fn image_start(mem: &[u8], p: u8) -> usize
    requires { room_size ≤ length mem.now }
    ensures { result ≡ image_at (capacity mem.now) p }
{
    ROOM + ROOM * usize::from(mem[CAPACITY]) + ROOM * usize::from(p)
}

// Saves what undoes a change, at the ring's next place; the oldest entry gives way when all are in use.
pub(crate) fn save(mem: &mut [u8], from: u8, to: u8, offset: usize, len: usize)
    requires { Able mem.old from to 0 offset len }
    ensures { Saved mem.old (saving mem.old from to offset len) mem.new }
{
    let j = mem[DEPTH];
    let h = mem[NEXT];
    let n = mem[STEPS];
    if j == 0 {
        return;
    }
    let at = room_start(mem, from) + offset;
    let image = image_start(mem, h);
    copy(mem, at, image, len);
    let entry = ENTRIES + ENTRY_SIZE * usize::from(h);
    note(mem, entry, from, to, offset, len);
    set_ring(mem, next_place(h, j), one_more(n, j));
}

// The place of the order in a byte, or the last one if it is past it.
fn place_at(mem: &[u8], a: usize) -> u8
    requires { (a < length mem.now) × Header mem.now }
    ensures { result ≡ min (get_or mem.now a 0) (capacity mem.now - 1) }
{
    byte_at(mem, a, mem[CAPACITY] - 1)
}

// Makes the change that the entry at a place tells of.
pub(crate) fn replay(mem: &mut [u8], p: u8)
    requires { (p < depth mem.old) × Header mem.old × Ready mem.old p }
    ensures { Changed mem.old (entry mem.old p) mem.new }
{
    let a = ENTRIES + ENTRY_SIZE * usize::from(p);
    let from = place_at(mem, a);
    let to = place_at(mem, a + 1);
    let offset = number_at(mem, a + 2, ROOM);
    let len = number_at(mem, a + 4, ROOM - offset);
    let head = head_at(mem, a + 8);
    let image = image_start(mem, p);
    let at = room_start(mem, from) + offset;
    copy(mem, image, at, len);
    settle(mem, from, to, &head);
}

// Whether the entry at a place can be undone: its slot is one.
pub(crate) fn ready(mem: &[u8], p: usize) -> bool
    requires { (p < most) × Header mem.now }
    ensures { (result ≡ true → Ready mem.now p) × (result ≡ false → Ready mem.now p → ⊥) }
{
    let from = place_at(mem, ENTRIES + ENTRY_SIZE * p);
    mem[ORDER + usize::from(from)] < mem[CAPACITY]
}
