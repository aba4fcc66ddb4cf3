// The regions of side 16 and 4 of the solid drawing by tiles, and the look that every side but 1 shares.
#![tactic(auto)]

pub mod fours;
pub mod look;
pub mod sixteens;
