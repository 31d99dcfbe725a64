// Formats `[min]:[max][:step]` of integers and floats, and the payloads that they let pass.
#![tactic(auto)]

ghost use Rattle.std.specs.Prelude.{◌≡◌, option_map};
ghost use Rattle.std.specs.Int.Signed.{le_z};
ghost use Rattle.numbers.specs.Integer.{integer, integer_read};
ghost use Rattle.numbers.specs.Decimal.{decimal, exact};
ghost use Rattle.ranges.specs.Ranges.{positive, le_decimal, exactly, integer_range, float_range, whole_in_range, decimal_in_range, is_integer, is_float, is_float_up_to};
ghost use Rattle.ranges.specs.Answers.{step_read, whole_bounds, whole_range_of, exact_range, float_range_of};
ghost use Rattle.ranges.specs.Parts.{fields, shown, given, whole_limit_of, exact_limit_of, within, keep, with_step};

use numbers::billionths::read_billionths;
use numbers::compare::{decimal_in_range, decimal_le};
use numbers::decimals::{Decimal, read_decimal, whole_decimal};
use numbers::integers::{above_zero, read_integer};
use numbers::steps::in_range;
use std::num::NonZeroU64;

// What stands between the colons.
#[derive(Clone, Copy)]
struct Fields<'a> {
    min: &'a [u8],
    max: &'a [u8],
    step: Option<&'a [u8]>,
}

// Whole numbers: integers, or floats in billionths.
#[derive(Clone, Copy)]
pub struct WholeRange {
    pub min: Option<u64>,
    pub max: Option<u64>,
    pub step: Option<NonZeroU64>,
}

// Exact decimals, or with a step whole billionths.
#[derive(Clone, Copy)]
pub enum FloatRange {
    Exact {
        min: Option<Decimal>,
        max: Option<Decimal>,
    },
    Stepped(WholeRange),
}

fn cut_fields(s: &[u8]) -> Option<Fields<'_>>
    ensures { shown result ≡ fields s.now }
{
    let first = text::next_part(s, 0, b':')?;
    let second = text::next_part(s, first.next, b':')?;
    let min = &s[..first.end];
    let max = &s[first.next..second.end];
    let Some(third) = text::next_part(s, second.next, b':') else {
        return Some(Fields {
            min,
            max,
            step: None,
        });
    };
    if third.next <= s.len() {
        return None;
    }
    Some(Fields {
        min,
        max,
        step: Some(&s[second.next..]),
    })
}

// A bound, which may be left out: `read` is what its text writes.
fn bound<T: Copy>(s: &[u8], read: Option<T>) -> Option<Option<T>>
    ensures { result ≡ given s.now read }
{
    if s.is_empty() {
        return Some(None);
    }
    Some(Some(read?))
}

fn whole_within(
    min: Option<Option<u64>>,
    max: Option<Option<u64>>,
    step: Option<NonZeroU64>,
) -> Option<WholeRange>
    ensures { whole_range_of result ≡ within le_z (whole_limit_of min) (whole_limit_of max) (step_read step) }
{
    let min = min?;
    let max = max?;
    match (min, max) {
        (Some(a), Some(b)) if b < a => None,
        _ => Some(WholeRange { min, max, step }),
    }
}

// The range with a step.
fn whole_stepped(
    min: Option<Option<u64>>,
    max: Option<Option<u64>>,
    step: Option<u64>,
) -> Option<WholeRange>
    ensures { whole_range_of result ≡ with_step le_z (whole_limit_of min) (whole_limit_of max) (keep positive (integer_read step)) }
{
    let n = above_zero(step?)?;
    whole_within(min, max, Some(n))
}

// The whole number that was read, rounded to the step, is within the bounds.
fn is_whole(read: Option<u64>, r: WholeRange) -> bool
    ensures { result ≡ whole_in_range (Some (whole_bounds r)) (integer_read read) }
{
    read.is_some_and(|v| in_range(v, r.min, r.max, r.step))
}

// The range of an integer's format.
pub fn integer_range(s: &[u8]) -> Option<WholeRange>
    ensures { whole_range_of result ≡ integer_range s.now }
{
    let f = cut_fields(s)?;
    let min = bound(f.min, read_integer(f.min));
    let max = bound(f.max, read_integer(f.max));
    match f.step {
        Some(step) => whole_stepped(min, max, read_integer(step)),
        None => whole_within(min, max, None),
    }
}

// An integer that a format lets pass, rounded to its step.
#[tactic(auto, unfolding(crate::specs::Ranges::is_integer))]
pub fn is_integer(format: &[u8], s: &[u8]) -> bool
    ensures { result ≡ is_integer format.now s.now }
{
    integer_range(format).is_some_and(|r| is_whole(read_integer(s), r))
}

fn read_exact(s: &[u8]) -> Option<Decimal>
    ensures { option_map exact result ≡ decimal s.now }
{
    Some(read_decimal(s)?.value)
}

fn float_within(min: Option<Option<Decimal>>, max: Option<Option<Decimal>>) -> Option<FloatRange>
    ensures { float_range_of result ≡ option_map exactly (within le_decimal (exact_limit_of min) (exact_limit_of max) None) }
{
    let min = min?;
    let max = max?;
    match (min, max) {
        (Some(a), Some(b)) if !decimal_le(a, b) => None,
        _ => Some(FloatRange::Exact { min, max }),
    }
}

// The range of a float's format.
pub fn float_range(s: &[u8]) -> Option<FloatRange>
    ensures { float_range_of result ≡ float_range s.now }
{
    let f = cut_fields(s)?;
    let Some(step) = f.step else {
        let min = bound(f.min, read_exact(f.min));
        let max = bound(f.max, read_exact(f.max));
        return float_within(min, max);
    };
    let min = bound(f.min, read_billionths(f.min));
    let max = bound(f.max, read_billionths(f.max));
    let range = whole_stepped(min, max, read_billionths(step))?;
    Some(FloatRange::Stepped(range))
}

// A decimal is within the bounds, unrounded.
fn is_decimal(s: &[u8], min: Option<Decimal>, max: Option<Decimal>) -> bool
    ensures { result ≡ decimal_in_range (Some (exact_range min max)) (decimal s.now) }
{
    read_exact(s).is_some_and(|d| decimal_in_range(d, min, max))
}

// A float that a format lets pass: rounded to its step, or as it is where there is none.
pub fn is_float(format: &[u8], s: &[u8]) -> bool
    ensures { result ≡ is_float format.now s.now }
{
    match float_range(format) {
        Some(FloatRange::Exact { min, max }) => is_decimal(s, min, max),
        Some(FloatRange::Stepped(r)) => is_whole(read_billionths(s), r),
        None => false,
    }
}

// A float from 0 to `most`.
pub fn is_up_to(s: &[u8], most: u64) -> bool
    ensures { result ≡ is_float_up_to most s.now }
{
    is_decimal(s, Some(whole_decimal(0)), Some(whole_decimal(most)))
}
