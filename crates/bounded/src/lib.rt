// The bound on delta steps of a model without loops: the rules keep the laws of crate `loops`. All of it is mathematics, in specs/ and
// proofs/.

#![tactic(auto)]
