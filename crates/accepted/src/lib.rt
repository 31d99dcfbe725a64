// What a description is taken for, as a list of tests. This crate has definitions and laws only: see specs/Rules.antt, proofs/Theorems.antt.
#![tactic(auto)]
