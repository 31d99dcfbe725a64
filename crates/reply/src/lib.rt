// What a call of the interface hands back of each answer of the crates below: a number, and values in the lent array `out`.
#![tactic(auto)]

ghost use Rattle.std.specs.Prelude.{◌^◌, ◌≡◌, ◌∷◌, []};
ghost use Rattle.answer.specs.Answer.{placed};
ghost use Rattle.numbers.specs.Whole.{stands};
ghost use Rattle.reply.specs.Reply.{Replied, says, refusal_code, fit_place, twos_complement};

pub mod answers;
pub mod descriptions;
pub mod files;
pub mod judgements;
pub mod strings;

// Places that there is room for: those of 24 bits.
const PLACES_BELOW: usize = 0x1000000;

// The number of a refusal that tells a place.
#[tactic(auto, unfolding(crate::specs::Reply::telling))]
pub fn refusal_code(number: u8, place: usize) -> u32
    ensures { result ≡ refusal_code (placed number (fit_place place)) }
{
    number as u32 + 256 * ((place % PLACES_BELOW) as u32)
}

// Writes the values of an answer to the front of `out`, as far as they fit.
pub fn tell(out: &mut [u64], vs: &[u64]) -> u32
    ensures { Replied (says vs.now) out.old result out.new }
{
    let n = vs.len().min(out.len());
    out[..n].copy_from_slice(&vs[..n]);
    0
}

fn tell_value(out: &mut [u64], v: u64) -> u32
    ensures { Replied (says (v ∷ [])) out.old result out.new }
{
    let vs = [v];
    tell(out, &vs)
}

// The 64 bits of an `int64_t`: of the integer that `v` stands for.
fn twos_complement(v: u64) -> u64
    ensures { result ≡ twos_complement (stands (2 ^ 63) v) }
{
    if v < 9223372036854775808 {
        v + 9223372036854775808
    } else {
        v - 9223372036854775808
    }
}
