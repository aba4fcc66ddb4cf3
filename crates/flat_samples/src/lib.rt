// The samples of a region of side 8 of a flat drawing: a row of at most 8 in one sweep, stored as one byte.
#![tactic(auto)]

pub mod samples;
