// Random descent: what the choice and the order of picks cannot change, for any kernel that keeps its laws. All of it is
// mathematics, in specs/ and proofs/.

#![tactic(auto)]
