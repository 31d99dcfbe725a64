// The grammar of RFC 8259, and that the reader of crate json_text takes exactly its texts. This crate has definitions and theorems only: see specs/Rfc8259.antt and proofs/Theorems.antt.
#![tactic(auto)]
