// Comma lists: the entries of a format.
#![tactic(auto)]

ghost use Rattle.std.specs.Prelude.{◌≡◌, length};
ghost use Rattle.entries.specs.Entries.{entries_of, is_in, is_list, all_in};

// `entry` is one of the entries, exactly.
pub fn has(s: &[u8], entry: &[u8]) -> bool
    ensures { result ≡ is_in entry.now (entries_of s.now) }
{
    s.split(|b| *b == b',').any(|e| text::same(entry, e))
}

// No entry is empty and none is there twice.
// Kept by hand: the paper names the form of this place, nested loops that are left by a label at the first repeated pair.
pub fn is_list(s: &[u8]) -> bool
    ensures { result ≡ is_list s.now }
{
    let mut ok = true;
    let mut i = 0;
    'entries: while let Some(entry) = text::next_part(s, i, b',') {
        if entry.start == entry.end {
            ok = false;
            break 'entries;
        }
        let mut j = entry.next;
        while let Some(other) = text::next_part(s, j, b',') {
            if text::same(&s[entry.start..entry.end], &s[other.start..other.end]) {
                ok = false;
                break 'entries;
            }
            j = other.next;
        }
        i = entry.next;
    }
    ok
}

// Each entry of `s` is one of the entries of `of`.
pub fn all_in(s: &[u8], of: &[u8]) -> bool
    ensures { result ≡ all_in (entries_of s.now) (entries_of of.now) }
{
    s.split(|b| *b == b',').all(|entry| has(of, entry))
}

// How many entries there are.
pub fn count(s: &[u8]) -> usize
    ensures { result ≡ length (entries_of s.now) }
{
    s.split(|b| *b == b',').count()
}
