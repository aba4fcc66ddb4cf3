// The full drawings: the whole tape at every sample, from packed words.
#![tactic(auto)]

pub mod count;
pub mod flat;
pub mod material;
pub mod solid;
