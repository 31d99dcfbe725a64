// Numbers of payloads: integers of 64 bits, exact decimals, and rounding to a step.
#![tactic(auto)]

pub mod billionths;
pub mod compare;
pub mod decimals;
mod digits;
pub mod integers;
pub mod steps;
