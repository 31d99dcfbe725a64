// Grammars as data. This crate has definitions and laws only: see specs/Abnf.antt.
#![tactic(auto)]
