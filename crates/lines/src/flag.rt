// Flags as words: `0` and `1`.
ghost use Rattle.std.specs.Prelude.{◌≡◌};
ghost use Rattle.lines.specs.Flag.{flag_of};

// The flag that a word writes, if it writes one.
pub fn read(w: &[u8]) -> Option<bool>
    ensures { result ≡ flag_of w.now }
{
    if text::same(w, b"1") {
        return Some(true);
    }
    if text::same(w, b"0") {
        return Some(false);
    }
    None
}
