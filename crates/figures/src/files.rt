// Both drawn figures, by tiles and in full, and their files.
use crate::drawn;
use figure_lines::{given, say};
use layers::{draw_flat, draw_solid, write_bitmap, write_heights};

// Where x is below 2, on a grid of 3 by 2.
pub fn flat() {
    let tape = given::tape(1);
    let mut picture = [255u8; 2];
    drawn::flat(b"flat by tiles", &tape, given::grid(3, 2, 0), &mut picture);
    let mut file = [255u8; 9];
    say::answer(b"its file", write_bitmap(3, 2, &picture, &mut file));
    say::bytes(&file);
    say::head(&file, b"P4\n3 2\n");
}

pub fn flat_in_full() {
    let tape = given::tape(1);
    let mut picture = [255u8; 2];
    let answer = draw_flat(&tape, given::grid(3, 2, 0), &mut picture);
    say::answer(b"flat in full", answer);
    say::bytes(&picture);
}

// Where z is below 2, on a grid of 1 by 1 and depth 4.
pub fn solid() {
    let tape = given::tape(3);
    let mut picture = [65535u16; 1];
    drawn::solid(b"solid by tiles", &tape, given::grid(1, 1, 4), &mut picture);
    say::height(&picture);
    let mut file = [255u8; 15];
    say::answer(b"its file", write_heights(1, 1, &picture, &mut file));
    say::bytes(&file);
    say::head(&file, b"P5\n1 1\n65535\n");
}

// Beside `flat_in_full` it has another tape, grid, type of a pixel, call and line: they share no line.
pub fn solid_in_full() {
    let tape = given::tape(3);
    let mut picture = [65535u16; 1];
    let answer = draw_solid(&tape, given::grid(1, 1, 4), &mut picture);
    say::answer(b"solid in full", answer);
    say::height(&picture);
}
