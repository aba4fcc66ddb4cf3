// No code: `proofs/` has tapes and grids computed, so that no hypothesis of the theory is empty.
#![tactic(auto)]
