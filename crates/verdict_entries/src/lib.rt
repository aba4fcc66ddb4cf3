// Entries of the table of verdicts: a tile's entry met and written, and the words that a kept one stands for.
#![tactic(auto)]

pub mod entry;
pub mod judged;
pub mod kept;
