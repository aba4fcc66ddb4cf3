// What the programs of figures lend to the calls, and how they tell what came back.
#![tactic(auto)]

pub mod given;
pub mod say;
