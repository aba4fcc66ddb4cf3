// One tile of a flat picture with the table of verdicts: met, and drawn as its entry says.
#![tactic(auto)]

pub mod tile;
