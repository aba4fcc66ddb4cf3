// The swept picture by tiles: a tile keeps those positions that may cover it, and each region of side 8 in it those of the
// tile that may cover the region.
#![tactic(auto)]

pub mod eights;
pub mod look;
pub mod tiles;
