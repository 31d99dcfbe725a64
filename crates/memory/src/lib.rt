// Memory that the caller lends, as rooms: a header, D rooms in an order, J step-back rooms; and whether it is sound.
// Nothing here knows what a room holds.
#![tactic(auto)]

ghost use Rattle.std.specs.Prelude.{◌≡◌, true, false, ℕ, ◌+◌, ◌≤◌, ◌<◌, length, get_or};
ghost use Rattle.memory.specs.Layout.{room_size, most, order_at, slot, room_at};
ghost use Rattle.memory.specs.Sound.{Header, Permutation, ChangeFits, Able, Sound};
ghost use Rattle.memory.specs.Parts.{Counters, Hits, total};

// The layout: see specs/Layout.antt.
pub const ROOM: usize = 8192;

pub const MOST: usize = 64;

pub const MARK: u8 = 72;

pub const MARK_AT: usize = 0;

pub const CAPACITY: usize = 1;

pub const DEPTH: usize = 2;

pub const NEXT: usize = 3;

pub const STEPS: usize = 4;

pub const DOMAIN_LENGTH: usize = 5;

pub const DOMAIN: usize = 8;

pub const DOMAIN_MOST: usize = text::Id::MAX;

pub const HEAD: usize = 40;

pub const HEAD_SIZE: usize = 24;

pub const ORDER: usize = 64;

pub const ENTRIES: usize = 128;

pub const ENTRY_SIZE: usize = 32;

// The byte at a place, 0 past the end.
pub fn byte(mem: &[u8], at: usize) -> u8
    ensures { result ≡ get_or mem.now at 0 }
{
    mem.get(at).copied().unwrap_or(0)
}

// Where the room of a slot starts.
pub fn room_at(k: u8) -> usize
    ensures { result ≡ room_at k }
{
    ROOM + ROOM * usize::from(k)
}

// Where the room at a place of the order starts.
pub fn room_start(mem: &[u8], i: u8) -> usize
    ensures { result ≡ room_at (slot mem.now i) }
{
    room_at(byte(mem, ORDER + usize::from(i)))
}

fn counters(mem: &[u8]) -> bool
    requires { room_size ≤ length mem.now }
    ensures { (result ≡ true → Counters mem.now) × (result ≡ false → Counters mem.now → ⊥) }
{
    let n = usize::from(mem[DOMAIN_LENGTH]);
    1 <= n
        && n <= DOMAIN_MOST
        && mem[HEAD] <= mem[CAPACITY]
        && mem[STEPS] <= mem[DEPTH]
        && (mem[NEXT] == 0 || mem[NEXT] < mem[DEPTH])
}

// Whether the header is sound.
pub fn header(mem: &[u8]) -> bool
    ensures { (result ≡ true → Header mem.now) × (result ≡ false → Header mem.now → ⊥) }
{
    if mem.len() < ROOM {
        return false;
    }
    let d = usize::from(mem[CAPACITY]);
    let j = usize::from(mem[DEPTH]);
    mem[MARK_AT] == MARK
        && 1 <= d
        && d <= MOST
        && j <= MOST
        && ROOM + ROOM * d + ROOM * j <= mem.len()
        && counters(mem)
}

// A mark for each slot that the order names.
// Kept by hand: no heap, so the marks are an array, one for each value of a byte.
fn marks(mem: &[u8], d: usize) -> [u8; 256]
    requires { (d ≤ most) × (order_at + most ≤ length mem.now) }
    ensures { Hits (slot mem.now) d result }
{
    let mut seen = [0u8; 256];
    for t in 0..d {
        seen[usize::from(mem[ORDER + t])] = 1;
    }
    seen
}

// How many of the first d slots are marked.
fn marked(seen: &[u8; 256], d: usize) -> u8
    requires { (d ≤ most) × ((s : ℕ) → s < 256 → get_or seen.now s 0 ≤ 1) }
    ensures { result ≡ total (λ s. get_or seen.now s 0) d }
{
    let mut n: u8 = 0;
    for k in 0..d {
        n += seen[k];
    }
    n
}

// Whether the order names each of d slots once: d names mark d slots.
fn permuted(mem: &[u8], d: usize) -> bool
    requires { (d ≤ most) × (order_at + most ≤ length mem.now) }
    ensures { (result ≡ true → Permutation d (slot mem.now)) × (result ≡ false → Permutation d (slot mem.now) → ⊥) }
{
    let seen = marks(mem, d);
    usize::from(marked(&seen, d)) == d
}

// Whether d rooms can take a change.
fn suits(d: u8, from: u8, to: u8, n: u8, offset: usize, len: usize) -> bool
    ensures { (result ≡ true → ChangeFits d from to n offset len) × (result ≡ false → ChangeFits d from to n offset len → ⊥) }
{
    from < d && to < d && n <= d && offset <= ROOM && len <= ROOM - offset
}

// Whether a change can be made: the header is sound, the change fits, and the slot is one.
pub fn able(mem: &[u8], from: u8, to: u8, n: u8, offset: usize, len: usize) -> bool
    ensures { (result ≡ true → Able mem.now from to n offset len) × (result ≡ false → Able mem.now from to n offset len → ⊥) }
{
    header(mem)
        && suits(mem[CAPACITY], from, to, n, offset, len)
        && mem[ORDER + usize::from(from)] < mem[CAPACITY]
}

// Whether memory is sound: the header and one pass over the order, whatever the ring and the rooms hold.
pub fn sound(mem: &[u8]) -> bool
    ensures { (result ≡ true → Sound mem.now) × (result ≡ false → Sound mem.now → ⊥) }
{
    header(mem) && permuted(mem, usize::from(mem[CAPACITY]))
}
