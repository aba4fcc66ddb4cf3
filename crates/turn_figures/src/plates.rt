// A plate of 70 by 2 pixels, two tiles: parts come and go, and places of other bytes are told.
use figure_lines::{given, say};
use layers::{plate_add, plate_remove};

// The memory of an empty plate.
fn plate() -> [u8; 524288] {
    given::filled(0)
}

fn add(what: &[u8], memory: &mut [u8], place: u32, tape: &[u8], picture: &mut [u8]) {
    let grid = given::grid(70, 2, 0);
    let mut work = given::work();
    say::answer(
        what,
        plate_add(memory, place, tape, grid, picture, &mut work),
    );
    say::bytes(picture);
}

fn remove(what: &[u8], memory: &mut [u8], place: u32, picture: &mut [u8]) {
    let grid = given::grid(70, 2, 0);
    let mut work = given::work();
    say::answer(what, plate_remove(memory, place, grid, picture, &mut work));
    say::bytes(picture);
}

// Where x is below 2, and where it is above 66: each touches one tile. Bytes of a tile that is not touched stay.
pub fn come_and_go() {
    let list = [1i32, 0, 0, 0, 0, 0, 1, 0, 0, 4325376, 10, 0, 1, 0, 0];
    let above: [u8; 38] = given::packed(b"66 less x", 2, &list);
    let mut memory = plate();
    let mut picture = [0u8; 18];
    add(
        b"x less 2 to place 3",
        &mut memory,
        3,
        &given::tape(1),
        &mut picture,
    );
    add(
        b"66 less x to place 0",
        &mut memory,
        0,
        &above,
        &mut picture,
    );
    let mut other = [170u8; 18];
    remove(b"place 3 goes", &mut memory, 3, &mut other);
}

// A stray 1 at the end of place 2, which is empty; and slot 7 in clause 2 of place 4, of two slots.
pub fn other_bytes() {
    let tape = given::tape(1);
    let mut memory = plate();
    let mut picture = [0u8; 18];
    memory[196607] = 1;
    add(b"a stray 1", &mut memory, 0, &tape, &mut picture);
    memory[196607] = 0;
    add(b"none", &mut memory, 4, &tape, &mut picture);
    memory[262177] = 7;
    remove(b"slot 7", &mut memory, 4, &mut picture);
}
