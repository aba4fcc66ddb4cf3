// A drawing by tiles, and what it answers. Flat and solid differ in the type of a pixel and in the call, which is all that
// they are.
use figure_lines::{given, say};
use layers::{tile_flat, tile_solid};
use picture::grid::Grid;

pub fn flat(what: &[u8], tape: &[u8], grid: Grid, picture: &mut [u8]) {
    let mut work = given::work();
    say::answer(what, tile_flat(tape, grid, picture, &mut work));
}

pub fn solid(what: &[u8], tape: &[u8], grid: Grid, picture: &mut [u16]) {
    let mut work = given::work();
    say::answer(what, tile_solid(tape, grid, picture, &mut work));
}

// On a grid of 3 by 2.
pub fn small(what: &[u8], tape: &[u8]) {
    let mut picture = [255u8; 2];
    flat(what, tape, given::grid(3, 2, 0), &mut picture);
    say::bytes(&picture);
}
