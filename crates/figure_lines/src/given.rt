// What the calls are lent.
ghost use Rattle.std.specs.Prelude.{◌≡◌, length, replicate};
ghost use Rattle.rules.specs.Drawings.{work_limit};
ghost use Rattle.figure_lines.specs.Packed.{packed_onto};

use crate::say;
use layers::{WORK_LIMIT, pack_tape};
use picture::grid::Grid;
use rectangle::Rectangle;

// The paper's tape: an axis (1 for x, 3 for z) in slot 0, the constant 131,072 in 1, subtract of 0, 1 into 0.
pub fn tape(axis: u8) -> [u8; 38]
    ensures { 38 ≡ length result }
{
    [
        84, 80, 1, 2, 3, 0, 0, 0, 67, 76, axis, 0, 0, 0, 0, 0, 0, 0, 67, 76, 0, 1, 0, 0, 0, 0, 2,
        0, 67, 76, 10, 0, 0, 1, 0, 0, 0, 0,
    ]
}

// Origins 0 and steps of 65,536.
pub fn grid(width: u32, height: u32, depth: u32) -> Grid {
    Grid {
        width,
        height,
        depth,
        xorigin: 0,
        yorigin: 0,
        zorigin: 0,
        xstep: 65536,
        ystep: 65536,
        zstep: 65536,
    }
}

// A rectangle of tiles.
pub fn rectangle(column: u32, row: u32, columns: u32, rows: u32) -> Rectangle {
    Rectangle {
        column,
        row,
        columns,
        rows,
    }
}

// An array of one value. Its type lets it hold nothing else, so that no wrong answer of it can be written.
pub fn filled<T: Copy, const N: usize>(value: T) -> [T; N]
    ensures size { N ≡ length result }
    ensures each { result ≡ replicate N value }
{
    [value; N]
}

// A work buffer of the least length, which is not clear.
pub fn work() -> [u8; WORK_LIMIT]
    ensures { work_limit ≡ length result }
{
    filled(255)
}

// The tape that a list makes, after what packing it answers.
pub fn packed<const N: usize>(what: &[u8], slots: u32, list: &[i32]) -> [u8; N]
    ensures size { N ≡ length result }
    ensures bytes { result ≡ packed_onto slots list.now (replicate N 255) }
{
    let mut tape = filled(255);
    say::answer(what, pack_tape(slots, list, &mut tape));
    tape
}

// 1,100 clauses as a list, each of which puts the constant 5 in slot 100, before the paper's three.
pub fn lettered_list() -> [i32; 5515]
    ensures { 5515 ≡ length result }
{
    let mut list = [0i32; 5515];
    for i in 0..1100 {
        list[5 * i + 1] = 100;
        list[5 * i + 4] = 5;
    }
    list[5500] = 1;
    list[5506] = 1;
    list[5509] = 131072;
    list[5510] = 10;
    list[5513] = 1;
    list
}
