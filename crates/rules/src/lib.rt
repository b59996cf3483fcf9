// The rules of document 01 as definitions, in specs/, and the laws about them, in proofs/. This crate has no code.
#![tactic(auto)]
