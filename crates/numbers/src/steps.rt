// Rounding to a step. A u64 n stands for n - bias, for any bias that all numbers of a call share.
ghost use Rattle.std.specs.Prelude.{◌≡◌, ℕ, ◌+◌, ◌<◌, leb};
ghost use Rattle.std.proofs.Math.IntN.{sub_ℕ};
ghost use Rattle.numbers.specs.Whole.{stands};
ghost use Rattle.numbers.specs.Step.{rounded, in_bounds, limit, size, in_range};
ghost use Rattle.numbers.specs.Parts.{Past};

use std::num::NonZeroU64;

// A number to add and a number to take away.
#[derive(Clone, Copy)]
struct Move {
    add: u64,
    sub: u64,
}

// a + x <= b + y, where the sums need not fit.
fn sum_le(a: u64, x: u64, b: u64, y: u64) -> bool
    ensures { result ≡ leb (a + x) (b + y) }
{
    u128::from(a) + u128::from(x) <= u128::from(b) + u128::from(y)
}

// v - b modulo s, rounded down.
fn past_step(v: u64, b: u64, s: u64) -> u64
    requires { 0 < s }
    ensures { Past v b s result }
{
    if b <= v {
        (v - b) % s
    } else {
        let t = (b - v) % s;
        if t == 0 { 0 } else { s - t }
    }
}

// From v to its rounded value.
fn to_step(v: u64, b: u64, s: u64) -> Move
    requires { 0 < s }
    ensures { (k : ℕ) → rounded (sub_ℕ b k) (sub_ℕ v k) s ≡ sub_ℕ (v + result.add) (k + result.sub) }
{
    let r = past_step(v, b, s);
    if r < s - r {
        Move { add: 0, sub: r }
    } else {
        Move { add: s - r, sub: 0 }
    }
}

// v with the move is within the bounds.
fn hold(min: Option<u64>, max: Option<u64>, v: u64, m: Move) -> bool
    ensures { (k : ℕ) → result ≡ in_bounds (limit k min) (limit k max) (sub_ℕ (v + m.add) (k + m.sub)) }
{
    min.is_none_or(|n| sum_le(n, m.sub, v, m.add)) && max.is_none_or(|n| sum_le(v, m.add, n, m.sub))
}

// v, rounded to the step where there is one, is within the bounds.
pub fn in_range(v: u64, min: Option<u64>, max: Option<u64>, step: Option<NonZeroU64>) -> bool
    ensures { (bias : ℕ) → result ≡ in_range (limit bias min) (limit bias max) (size step) (stands bias v) }
{
    let Some(step) = step else {
        return hold(min, max, v, Move { add: 0, sub: 0 });
    };
    match min.or(max) {
        Some(b) => hold(min, max, v, to_step(v, b, step.get())),
        None => true,
    }
}
