// A rectangle of tiles of a flat picture, drawn with the table of verdicts: on a blank picture of the call's own, from
// which the rectangle's bytes are laid into the lent one.
#![tactic(auto)]

pub mod draw;
pub mod tiles;
