// The 64-tiles of a plate's picture that a part touches: found, cleared, and a part's own drawing joined to them.
#![tactic(auto)]

pub mod join;
pub mod tiles;
