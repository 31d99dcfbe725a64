// Topics, datatypes, formats.
ghost use Rattle.std.specs.Prelude.{ℕ, ◌≡◌, List, ◌∷◌, []};
ghost use Rattle.topic.specs.Meaning.{meaning};
ghost use Rattle.reply.specs.Reply.{Replied, says, yes};
ghost use Rattle.reply.specs.Judgements.{show_form, show_topic, flag_number, show_flag, show_named, show_format};
ghost use Rattle.reply.specs.Parts.{places1, places2, places3};

use crate::{tell, tell_value};
use answer::Refused;
use payload::{Datatype, Format};
use text::Place;
use topic::{Flag, Topic};

// Kept by hand: one, two and three places; a loop that fills one array of seven values is no shorter than these arrays, which show their values.
fn tell_one(out: &mut [u64], form: u64, a: Place) -> u32
    ensures { Replied (says (places1 form a)) out.old result out.new }
{
    let vs = [form, a.start as u64, a.end as u64];
    tell(out, &vs)
}

fn tell_two(out: &mut [u64], form: u64, a: Place, b: Place) -> u32
    ensures { Replied (says (places2 form a b)) out.old result out.new }
{
    let vs = [
        form,
        a.start as u64,
        a.end as u64,
        b.start as u64,
        b.end as u64,
    ];
    tell(out, &vs)
}

fn tell_three(out: &mut [u64], form: u64, a: Place, b: Place, c: Place) -> u32
    ensures { Replied (says (places3 form a b c)) out.old result out.new }
{
    let vs = [
        form,
        a.start as u64,
        a.end as u64,
        b.start as u64,
        b.end as u64,
        c.start as u64,
        c.end as u64,
    ];
    tell(out, &vs)
}

#[tactic(auto, unfolding(crate::specs::Judgements::show_form))]
fn tell_form(out: &mut [u64], t: Topic) -> u32
    ensures { Replied (show_form t) out.old result out.new }
{
    match t {
        Topic::State { device: d } => tell_one(out, 0, d),
        Topic::Description { device: d } => tell_one(out, 1, d),
        Topic::Value {
            device: d,
            node: n,
            property: p,
        } => tell_three(out, 2, d, n, p),
        Topic::Set {
            device: d,
            node: n,
            property: p,
        } => tell_three(out, 3, d, n, p),
        Topic::Target {
            device: d,
            node: n,
            property: p,
        } => tell_three(out, 4, d, n, p),
        Topic::Alert { device: d, name: n } => tell_two(out, 5, d, n),
        Topic::Log {
            device: d,
            level: l,
        } => tell_two(out, 6, d, l),
        Topic::Broadcast { ids: i } => tell_one(out, 7, i),
        Topic::Other {
            device: d,
            word: w,
            levels: l,
        } => tell_three(out, 8, d, w, l),
    }
}

#[tactic(auto, using(crate::proofs::Out::nothing), unfolding(crate::specs::Judgements::show_topic))]
pub fn tell_topic(out: &mut [u64], t: Result<Topic, Refused>) -> u32
    ensures { Replied (show_topic t) out.old result out.new }
{
    match t {
        Ok(form) => tell_form(out, form),
        Err(r) => u32::from(r.number()),
    }
}

// Kept by hand: the numbers of the C interface beside their cases; `as u64` would let the order of `Flag` in crate topic decide them.
#[tactic(auto, unfolding(crate::specs::Judgements::flag_number))]
fn flag_number(f: Flag) -> u64
    ensures { result ≡ flag_number f }
{
    match f {
        Flag::NotRetained => 0,
        Flag::Retained => 1,
        Flag::Either => 2,
        Flag::AsProperty => 3,
    }
}

// What the form of a topic asks of a message's flag.
pub fn tell_flag(out: &mut [u64], t: Result<Topic, Refused>) -> u32
    ensures { (s : List ℕ) → Replied (show_flag (meaning s t)) out.old result out.new }
{
    let flag = flag_number(topic::flag_of(t));
    match t {
        Ok(_) => tell_value(out, flag),
        Err(r) => u32::from(r.number()),
    }
}

fn tell_yes(out: &mut [u64], code: u64) -> u32
    ensures { Replied (yes (code ∷ [])) out.old result out.new }
{
    tell_value(out, code);
    1
}

#[tactic(auto, using(crate::proofs::Out::nothing), unfolding(crate::specs::Judgements::show_named))]
pub fn tell_named(out: &mut [u64], a: Option<Datatype>) -> u32
    ensures { Replied (show_named a) out.old result out.new }
{
    let Some(d) = a else {
        return 0;
    };
    let n = payload::datatype_code(d);
    tell_yes(out, u64::from(n))
}

#[tactic(auto, using(crate::proofs::Out::nothing), unfolding(crate::specs::Judgements::show_format))]
pub fn tell_format(out: &mut [u64], f: Option<Format>) -> u32
    ensures { Replied (show_format f) out.old result out.new }
{
    let Some(kept) = f else {
        return 0;
    };
    tell_yes(out, kept as u64)
}
