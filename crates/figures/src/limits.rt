// The limits: the last that passes, and the first that does not.
use crate::drawn;
use figure_lines::{given, say};
use layers::{tile_flat, tile_solid, unpack_tape};
use netpbm::append::put;

// A drawing of one pixel.
fn draw(what: &[u8], tape: &[u8]) {
    let mut picture = [255u8; 1];
    drawn::flat(what, tape, given::grid(1, 1, 0), &mut picture);
}

// 1,024 clauses pass: each puts the constant 0 in slot 0.
pub fn most_clauses() {
    let mut list: [i32; 5120] = given::filled(0);
    let tape: [u8; 10248] = given::packed(b"1,024 clauses packed", 1, &list);
    draw(b"1,024 clauses drawn", &tape);
    let listed = unpack_tape(&tape, &mut list);
    say::answer(b"1,024 clauses unpacked", listed.answer);
}

// 1,025 give 3 in edition 01 only: packed they are of edition 02. The head put in its place tells of edition 01, one
// slot and so many clauses.
pub fn too_many_clauses() {
    let mut list: [i32; 5125] = given::filled(0);
    let mut tape: [u8; 10258] = given::packed(b"1,025 clauses packed", 1, &list);
    put(&mut tape, 0, b"TP\x01\x01\x01\x04\x00\x00");
    draw(b"1,025 clauses drawn", &tape);
    let listed = unpack_tape(&tape, &mut list);
    say::answer(b"1,025 clauses unpacked", listed.answer);
}

fn flat_size(what: &[u8], width: u32, height: u32, picture: &mut [u8]) {
    drawn::flat(
        what,
        &given::tape(1),
        given::grid(width, height, 0),
        picture,
    );
}

fn solid_size(what: &[u8], depth: u32) {
    let mut picture = [65535u16; 1];
    drawn::solid(
        what,
        &given::tape(3),
        given::grid(1, 1, depth),
        &mut picture,
    );
}

// Size 512 passes, 513 gives 10, on each axis.
pub fn sizes() {
    flat_size(b"width 512", 512, 1, &mut [255; 64]);
    flat_size(b"width 513", 513, 1, &mut [255; 65]);
    flat_size(b"height 512", 1, 512, &mut [255; 512]);
    flat_size(b"height 513", 1, 513, &mut [255; 513]);
    solid_size(b"depth 512", 512);
    solid_size(b"depth 513", 513);
}

// Work of 32,767 bytes gives 13.
fn short_work() -> [u8; 32767] {
    given::filled(255)
}

pub fn flat_work() {
    let answer = tile_flat(
        &given::tape(1),
        given::grid(3, 2, 0),
        &mut [255; 2],
        &mut short_work(),
    );
    say::answer(b"flat, work 32,767", answer);
}

// Beside `flat_work` it has another tape, grid, picture, call and line.
pub fn solid_work() {
    let answer = tile_solid(
        &given::tape(3),
        given::grid(1, 1, 4),
        &mut [65535; 1],
        &mut short_work(),
    );
    say::answer(b"solid, work 32,767", answer);
}
