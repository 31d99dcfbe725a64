// Where a text is wrong that is not JSON, too deep or too long.
#![tactic(auto)]

ghost use Rattle.std.specs.Prelude.{◌≡◌};
ghost use Rattle.json_grammar.specs.Place.{json_place, fault_place};

// The first byte at which the text cannot go on as JSON nested at most 16 deep; its length where there is none.
fn json_place(s: &[u8]) -> usize
    ensures { result ≡ json_place s.now }
{
    let mut none = [0u16; 1];
    match json_text::mark(s, &mut none) {
        Err(p) => p,
        Ok(e) => e,
    }
}

// The smallest of: the first byte at which the text cannot go on as JSON, or as UTF-8, its length where it ends early; the bracket that opens level 17;
// 8,192 where it is longer. The length of a text with which nothing is wrong. Bytes past the first 8,192 are not read.
pub fn place(s: &[u8]) -> usize
    ensures { result ≡ fault_place s.now }
{
    let t = text::slice(s, 0, 8192);
    json_place(t).min(text::utf8_place(t))
}
