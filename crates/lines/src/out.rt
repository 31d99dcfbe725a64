// Text that is put into a lent buffer, piece after piece.
ghost use Rattle.std.specs.Prelude.{◌≡◌, ◌+◌, ◌≤◌, leb, length};
ghost use Rattle.lines.specs.Out.{Puts};

// Whether n bytes fit from `at` on.
pub fn has_room(out: &[u8], at: usize, n: usize) -> bool
    ensures { result ≡ leb (at + n) (length out.now) }
{
    at <= out.len() && n <= out.len() - at
}

// Puts bytes from `at` on, and answers where the next go. Where there is no room nothing is put, and the answer is past the end, where nothing has room.
pub fn put(out: &mut [u8], at: usize, s: &[u8]) -> usize
    ensures { Puts out.old at s.now result out.new }
{
    if !has_room(out, at, s.len()) {
        return out.len() + 1;
    }
    let end = at + s.len();
    out[at..end].copy_from_slice(s);
    end
}
