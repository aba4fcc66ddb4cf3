// No code: `proofs/` has what the drawing calls share, flat and solid: that the words of a lent tape draw what the tape
// draws, and the two ends of a call.
#![tactic(auto)]
