// What the drawings by tiles share: regions with their ends in the grid, the range over one and the verdict on it.
#![tactic(auto)]

pub mod cell;
pub mod children;
pub mod judge;
pub mod look;
pub mod verdict;
