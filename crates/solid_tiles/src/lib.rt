// The solid drawing by tiles, on accepted tapes and grids.
#![tactic(auto)]

pub mod tiles;
