// Grids, and pictures as they are lent: bits of a flat one, heights of a solid.
#![tactic(auto)]

pub mod bits;
pub mod grid;
pub mod heights;
