// The table of verdicts that two users share: x less 2, drawn by one and then by the other, and what is refused; and a
// disc, four rectangles of its tiles in turn.
use figure_lines::{given, say};
use layers::{Rectangle, table_begin, table_draw};

// The bytes of a table, of what stands before its entries, and of an entry.
const TABLE: usize = 163936;

const BEFORE: usize = 65568;

const ENTRY: usize = 1537;

// A table that is not clear.
fn table() -> [u8; TABLE] {
    given::filled(255)
}

// The beginnings of the first entries.
fn entries(table: &[u8; TABLE], count: usize, bytes: usize) {
    for entry in table[BEFORE..].chunks_exact(ENTRY).take(count) {
        if let Some(beginning) = entry.get(..bytes) {
            say::bytes(beginning);
        }
    }
}

// x less 2 on a grid of 3 by 2, with what is given of tape and rectangle, into a picture that was not clear.
fn draw(what: &[u8], axis: u8, columns: u32, table: &mut [u8]) {
    let tape = given::tape(axis);
    let mut work = given::work();
    let mut picture = [255u8; 2];
    say::answer(
        what,
        table_draw(
            &tape,
            given::grid(3, 2, 0),
            given::rectangle(0, 0, columns, 1),
            table,
            &mut picture,
            &mut work,
        ),
    );
    say::bytes(&picture);
}

// The first draws, the second finds the verdict; the entry; then no tile, a tile too many, and another tape.
pub fn two_users() {
    let tape = given::tape(1);
    let mut table = table();
    say::answer(
        b"table begun",
        table_begin(&tape, given::grid(3, 2, 0), &mut table),
    );
    draw(b"by the writer", 1, 1, &mut table);
    draw(b"by the preview", 1, 1, &mut table);
    entries(&table, 1, 3);
    draw(b"no tile", 1, 0, &mut table);
    draw(b"a tile too many", 1, 2, &mut table);
    draw(b"with another tape", 2, 1, &mut table);
}

// root((x − 60)² + (y − 40)²) − 30, in units of 1/65,536, on a grid of 100 by 70: two by two tiles.
fn draw_disc(what: &[u8], tape: &[u8], tiles: Rectangle, table: &mut [u8]) {
    let mut work = given::work();
    let mut picture = [255u8; 910];
    say::answer(
        what,
        table_draw(
            tape,
            given::grid(100, 70, 0),
            tiles,
            table,
            &mut picture,
            &mut work,
        ),
    );
}

fn draw_in_turn(tape: &[u8], table: &mut [u8]) {
    draw_disc(b"tile 0", tape, given::rectangle(0, 0, 1, 1), table);
    draw_disc(b"tiles 0, 1", tape, given::rectangle(0, 0, 2, 1), table);
    draw_disc(b"tiles 0 to 3", tape, given::rectangle(0, 0, 2, 2), table);
    draw_disc(b"tile 3", tape, given::rectangle(1, 1, 1, 1), table);
}

// The fifth entry is of no tile.
pub fn disc() {
    let list = [
        1i32, 0, 0, 0, 0, 0, 1, 0, 0, 3932160, 10, 0, 0, 1, 0, 7, 0, 0, 0, 0, 2, 1, 0, 0, 0, 0, 2,
        0, 0, 2621440, 10, 1, 1, 2, 0, 7, 1, 1, 0, 0, 9, 0, 0, 1, 0, 8, 0, 0, 0, 0, 0, 1, 0, 0,
        1966080, 10, 0, 0, 1, 0,
    ];
    let tape: [u8; 128] = given::packed(b"the disc", 3, &list);
    let mut table = table();
    say::answer(
        b"its table begun",
        table_begin(&tape, given::grid(100, 70, 0), &mut table),
    );
    draw_in_turn(&tape, &mut table);
    entries(&table, 5, 5);
}
