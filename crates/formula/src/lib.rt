// A formula's text, read into the bytes of its tape: sums, products and items call each other, and each writes its
// clauses on a sheet, which is packed where the whole text is read.
#![tactic(auto)]

pub mod call;
mod digits;
mod head;
mod joins;
mod parts;
pub mod read_text;
mod sheet;
mod steps;
mod text;
