// Loops without delay: closed chains of a relation and the one to return, and the bound on delta steps, for any kernel that keeps its
// laws. All of it is mathematics, in specs/ and proofs/.

#![tactic(auto)]
