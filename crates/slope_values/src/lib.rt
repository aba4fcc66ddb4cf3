// A value and its slope on each axis, by forward differentiation: every operation on them.
#![tactic(auto)]

pub mod axis;
pub mod sloped;
