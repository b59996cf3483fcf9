// The marked cases of document 01, what some roots leave, the sample's diagram, paths between two trains, the block named where several
// fix a start, and the numbers of refusal, proved over the rules, in proofs/.
// This crate has no code.
#![tactic(auto)]
