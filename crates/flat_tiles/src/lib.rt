// The flat drawing by tiles: regions of side 64, those of a rectangle or all.
#![tactic(auto)]

pub mod tiles;
