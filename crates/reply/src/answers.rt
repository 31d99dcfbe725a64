// The table: outcomes of calls, and answers to questions.
ghost use Rattle.std.specs.Prelude.{◌≡◌};
ghost use Rattle.answer.specs.Refused.{number_of};
ghost use Rattle.reply.specs.Reply.{Replied};
ghost use Rattle.reply.specs.Answers.{outcome_number, fit_outcome, show_offer, show_number, show_id, show_states, show_relative, show_version, show_property, show_held, show_time};

use crate::{refusal_code, tell, tell_value, twos_complement};
use answer::Refused;
use device::{Declared, Lane};
use questions::States;
use table::Error;
use text::Place;

// 0 where a call is taken, else the refusal's number, and a place that it tells.
#[tactic(auto, unfolding(crate::specs::Answers::outcome_number, crate::specs::Answers::fit_outcome, crate::specs::Reply::telling))]
pub fn outcome_number(a: Result<(), Error>) -> u32
    ensures { result ≡ outcome_number (fit_outcome a) }
{
    match a {
        Ok(()) => 0,
        Err(Error::Refused(r)) => refused(r),
        Err(Error::Faulty(fault)) => refusal_code(fault.kind.number(), fault.place),
    }
}

fn refused(r: Refused) -> u32
    ensures { result ≡ number_of r }
{
    u32::from(r.number())
}

// Kept by hand: `tell_offer`, `tell_number` and `files::tell_count` differ in the type of the number; `usize` has no `From` into `u64`, and one function over `u64` would move the conversion to each caller.
#[tactic(auto, using(crate::proofs::Out::nothing), unfolding(crate::specs::Answers::show_offer))]
pub fn tell_offer(out: &mut [u64], a: Result<u8, Refused>) -> u32
    ensures { Replied (show_offer a) out.old result out.new }
{
    match a {
        Ok(steps) => tell_value(out, u64::from(steps)),
        Err(r) => refused(r),
    }
}

#[tactic(auto, using(crate::proofs::Out::nothing), unfolding(crate::specs::Answers::show_number))]
pub fn tell_number(out: &mut [u64], a: Result<u32, Refused>) -> u32
    ensures { Replied (show_number a) out.old result out.new }
{
    match a {
        Ok(n) => tell_value(out, u64::from(n)),
        Err(r) => refused(r),
    }
}

#[tactic(auto, using(crate::proofs::Out::nothing), unfolding(crate::specs::Answers::show_id))]
pub fn tell_id(out: &mut [u64], a: Result<Place, Refused>) -> u32
    ensures { Replied (show_id a) out.old result out.new }
{
    match a {
        Ok(p) => tell(out, &[p.start as u64, p.end as u64]),
        Err(r) => refused(r),
    }
}

#[tactic(auto, using(crate::proofs::Out::nothing), unfolding(crate::specs::Answers::show_states))]
pub fn tell_states(out: &mut [u64], a: Result<States, Refused>) -> u32
    ensures { Replied (show_states a) out.old result out.new }
{
    match a {
        Ok(s) => {
            let own = rules::state_code(s.own);
            let effective = rules::state_code(s.effective);
            tell(out, &[u64::from(own), u64::from(effective), s.time])
        }
        Err(r) => refused(r),
    }
}

#[tactic(auto, using(crate::proofs::Out::nothing), unfolding(crate::specs::Answers::show_relative))]
pub fn tell_relative(out: &mut [u64], a: Result<Option<Place>, Refused>) -> u32
    ensures { Replied (show_relative a) out.old result out.new }
{
    match a {
        Ok(Some(p)) => tell(out, &[1, p.start as u64, p.end as u64]),
        Ok(None) => tell_value(out, 0),
        Err(r) => refused(r),
    }
}

#[tactic(auto, using(crate::proofs::Out::nothing), unfolding(crate::specs::Answers::show_version))]
pub fn tell_version(out: &mut [u64], a: Result<Option<u64>, Refused>) -> u32
    ensures { Replied (show_version a) out.old result out.new }
{
    match a {
        Ok(Some(v)) => tell(out, &[1, twos_complement(v)]),
        Ok(None) => tell_value(out, 0),
        Err(r) => refused(r),
    }
}

#[tactic(auto, using(crate::proofs::Out::nothing), unfolding(crate::specs::Answers::show_property))]
pub fn tell_property(out: &mut [u64], a: Result<Declared, Refused>) -> u32
    ensures { Replied (show_property a) out.old result out.new }
{
    match a {
        Ok(p) => {
            let vs = [
                p.node.start as u64,
                p.node.end as u64,
                p.id.start as u64,
                p.id.end as u64,
                u64::from(payload::datatype_code(p.datatype)),
                p.format.start as u64,
                p.format.end as u64,
                u64::from(p.settable),
                u64::from(p.retained),
            ];
            tell(out, &vs)
        }
        Err(r) => refused(r),
    }
}

#[tactic(auto, using(crate::proofs::Out::nothing), unfolding(crate::specs::Answers::show_held))]
pub fn tell_held(out: &mut [u64], a: Result<Option<Lane>, Refused>) -> u32
    ensures { Replied (show_held a) out.old result out.new }
{
    match a {
        Ok(Some(lane)) => {
            let p = lane.payload;
            tell(out, &[1, lane.time, p.start as u64, p.end as u64])
        }
        Ok(None) => tell_value(out, 0),
        Err(r) => refused(r),
    }
}

#[tactic(auto, using(crate::proofs::Out::nothing), unfolding(crate::specs::Answers::show_time))]
pub fn tell_time(out: &mut [u64], a: Result<Option<u64>, Refused>) -> u32
    ensures { Replied (show_time a) out.old result out.new }
{
    match a {
        Ok(Some(t)) => tell(out, &[1, t]),
        Ok(None) => tell_value(out, 0),
        Err(r) => refused(r),
    }
}
