// Trace files.
ghost use Rattle.reply.specs.Reply.{Replied};
ghost use Rattle.reply.specs.Files.{show_count};

use crate::tell_value;
use answer::Refused;

// A count of events, or a new length.
#[tactic(auto, using(crate::proofs::Out::nothing), unfolding(crate::specs::Files::show_count))]
pub fn tell_count(out: &mut [u64], a: Result<usize, Refused>) -> u32
    ensures { Replied (show_count a) out.old result out.new }
{
    match a {
        Err(r) => u32::from(r.number()),
        Ok(n) => tell_value(out, n as u64),
    }
}
