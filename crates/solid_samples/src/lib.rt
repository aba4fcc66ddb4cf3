// The picture of a solid at a region: its rows, hidden or filled, and its samples, run in chunks of eight lanes.
#![tactic(auto)]

pub mod cell;
pub mod chunks;
pub mod samples;
pub mod settle;
pub mod whole;
