// What the text of a process body means and what the picks of its records do (specs/), and that the two reach the same waits and faults
// (proofs/). No code.

#![tactic(auto)]
