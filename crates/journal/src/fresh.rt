// Memory opened: what it must have, and the header that it is given.
ghost use Rattle.std.specs.Prelude.{◌≡◌, ◌≤◌, length};
ghost use Rattle.memory.specs.Layout.{image_at};
ghost use Rattle.journal.specs.Contract.{opens};
ghost use Rattle.journal.specs.Parts.{Opens, Marked, Laid};

use crate::bytes::{clear, number, write};
use memory::{
    CAPACITY, DEPTH, DOMAIN, DOMAIN_LENGTH, DOMAIN_MOST, ENTRIES, MARK, MARK_AT, MOST, ORDER, ROOM,
};

pub(crate) fn openable(n: usize, d: usize, j: usize, size: usize) -> bool
    ensures { result ≡ opens n d j size }
{
    1 <= d
        && d <= MOST
        && j <= MOST
        && 1 <= n
        && n <= DOMAIN_MOST
        && ROOM + ROOM * d + ROOM * j <= size
}

// The header's single bytes, all others 0.
fn mark(mem: &mut [u8], n: usize, d: usize, j: usize)
    requires { Opens n d j (length mem.old) }
    ensures { Marked mem.old n d j mem.new }
{
    clear(&mut mem[0..ROOM]);
    mem[MARK_AT] = MARK;
    mem[CAPACITY] = d as u8;
    mem[DEPTH] = j as u8;
    mem[DOMAIN_LENGTH] = n as u8;
}

// The whole header of memory with no device.
pub(crate) fn lay(mem: &mut [u8], domain: &[u8], d: usize, j: usize)
    requires { Opens (length domain.now) d j (length mem.old) }
    ensures { Laid mem.old domain.now d j mem.new }
{
    mark(mem, domain.len(), d, j);
    write(mem, domain, DOMAIN);
    number(&mut mem[ORDER..ENTRIES]);
}
