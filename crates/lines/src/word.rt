// The words of a line, parted by one space.
ghost use Rattle.std.specs.Prelude.{◌≡◌};
ghost use Rattle.lines.specs.Words.{word_at, word_count};

// How many words a line has; the empty line has one, which is empty.
pub fn count(line: &[u8]) -> usize
    ensures { result ≡ word_count line.now }
{
    line.split(|b| *b == b' ').count()
}

// The word of number k, or no bytes where there is none.
pub fn at(line: &[u8], k: usize) -> &[u8]
    ensures { result.now ≡ word_at line.now k }
{
    line.split(|b| *b == b' ').nth(k).unwrap_or(&[])
}
