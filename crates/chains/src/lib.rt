// What iterator chains and loops over lists say in the words of the rules. There are proofs alone here.
#![tactic(auto)]
