// Fixed-point arithmetic of every opcode: on values and over ranges, and the choice of a minimum and a maximum.
#![tactic(auto)]

pub mod clause;
pub mod span;
pub mod value;
