// The pixels of a region of a swept picture: filled with one number, or each by a search over the positions kept.
#![tactic(auto)]

pub mod pixels;
pub mod put;
pub mod search;
