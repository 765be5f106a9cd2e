// The meaning of a text by source document 000, rules 8 to 15 (specs/), and that a machine whose places lie as the text's statements do
// shows the same (proofs/), whatever its states, simple statements and conditions are. No code.

#![tactic(auto)]
