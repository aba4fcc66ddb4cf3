// A recorded path: its positions and line 25, what a position moves, and the positions that a region keeps.
#![tactic(auto)]

pub mod keep;
pub mod moved;
pub mod path;
