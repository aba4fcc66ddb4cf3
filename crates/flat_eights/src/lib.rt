// The regions of side 8 in a tile of the flat drawing, and the look at a region that sides 64 and 8 share.
#![tactic(auto)]

pub mod eights;
pub mod look;
