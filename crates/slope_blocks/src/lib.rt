// Slopes of a drawn solid's pixels: each at its visible sample, with the short tape of the block that it lies in.
#![tactic(auto)]

pub mod fours;
pub mod narrow;
mod parts;
pub mod sixteens;
