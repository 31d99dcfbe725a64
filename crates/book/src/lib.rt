// The plain book and the state with steps back, over any rules. This crate has definitions and a theorem only: see specs/Book.antt.
#![tactic(auto)]
