// The grammar of a process body, the records that it makes (specs/), and that a text has one reading (proofs/). No code.

#![tactic(auto)]
