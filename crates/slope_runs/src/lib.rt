// Slopes of a tape at a sample: a run of words with a value and its slope on each axis in a slot.
#![tactic(auto)]

pub mod run;
pub mod slots;
