// Lent memory changed and changed back: opened, a change made with what undoes it saved, the last change undone.
// Nothing here knows what a room holds.
#![tactic(auto)]

ghost use Rattle.std.specs.Prelude.{◌≡◌, true, false};
ghost use Rattle.journal.specs.Contract.{Opened, Committed, Undone, change_of};

mod bytes;
mod fresh;
mod ring;

use bytes::write;
use fresh::{lay, openable};
use memory::{DEPTH, HEAD_SIZE, NEXT, ROOM, STEPS, able, header, room_start};
use ring::{place_before, ready, replay, save, set_ring, settle};

// Makes a change and saves what undoes it: the room at `from` gets the bytes at the offset and moves to `to`, and the head is replaced.
// Does nothing if the header is not sound or the change does not fit.
pub fn commit(
    mem: &mut [u8],
    from: u8,
    to: u8,
    offset: usize,
    bytes: &[u8],
    head: &[u8; HEAD_SIZE],
) -> bool
    ensures { Committed mem.old (change_of from to offset bytes.now head.now) mem.new result }
{
    let len = bytes.len();
    if !able(mem, from, to, head[0], offset, len) {
        return false;
    }
    save(mem, from, to, offset, len);
    let start = room_start(mem, from);
    let end = start + ROOM;
    write(&mut mem[start..end], bytes, offset);
    settle(mem, from, to, head);
    true
}

// Undoes the last change that is on offer, if there is one.
pub fn undo(mem: &mut [u8]) -> bool
    ensures { Undone mem.old mem.new result }
{
    if !header(mem) {
        return false;
    }
    let n = mem[STEPS];
    if n == 0 {
        return false;
    }
    let p = place_before(mem[NEXT], mem[DEPTH]);
    if !ready(mem, usize::from(p)) {
        return false;
    }
    set_ring(mem, p, n - 1);
    replay(mem, p);
    true
}

// Opens memory for a domain, d devices and j steps back: no device, nothing to undo. Bytes past its size stay.
pub fn open(mem: &mut [u8], domain: &[u8], d: usize, j: usize) -> bool
    ensures { Opened mem.old domain.now d j mem.new result }
{
    if !openable(domain.len(), d, j, mem.len()) {
        return false;
    }
    lay(mem, domain, d, j);
    true
}
