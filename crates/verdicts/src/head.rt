// The table's head: the tape, zeros up to byte 65,536, and the grid record.
ghost use Rattle.std.specs.Prelude.{◌≡◌, false, ◌+◌, ◌≤◌, length, take};
ghost use Rattle.std.proofs.lemmas.List.Edits.{sets};
ghost use Rattle.program_rules.specs.Program.{record_length, grid_bytes};
ghost use Rattle.picture.specs.Shapes.{grid_in};
ghost use Rattle.table_rules.specs.Tables.{tape_room, head_length, flat_grid, table_head, same_bytes};
ghost use Rattle.verdicts.specs.Records.{size_bytes, three_bytes};

use crate::{HEAD_LENGTH, TAPE_ROOM};
use picture::bits::clear;
use picture::grid::Grid;
use tape::write::{put_constant, put_mark, put_word};

// The record's mark and sizes.
fn put_sizes(out: &mut [u8], width: u32, height: u32)
    requires { length out.old ≡ record_length }
    ensures { out.new ≡ sets out.old 0 (size_bytes width height) }
{
    put_mark(out, 0, b"GR");
    put_word(out, 2, width);
    put_word(out, 4, height);
    put_word(out, 6, 0)
}

fn put_three(out: &mut [u8], at: usize, x: i32, y: i32, z: i32)
    requires { at + 12 ≤ length out.old }
    ensures { out.new ≡ sets out.old at (three_bytes x y z) }
{
    put_constant(out, at, x);
    put_constant(out, at + 4, y);
    put_constant(out, at + 8, z)
}

// The record of a flat picture's grid, whose depth and third step are 0.
fn put_grid(out: &mut [u8], grid: Grid)
    requires { length out.old ≡ record_length }
    ensures { out.new ≡ grid_bytes (flat_grid (grid_in grid false)) }
{
    put_sizes(out, grid.width, grid.height);
    put_three(out, 8, grid.xorigin, grid.yorigin, grid.zorigin);
    put_three(out, 20, grid.xstep, grid.ystep, 0)
}

pub fn write_head(out: &mut [u8], tape: &[u8], grid: Grid)
    requires out_len { length out.old ≡ head_length }
    requires tape_len_bound { length tape.now ≤ tape_room }
    ensures { out.new ≡ table_head tape.now (flat_grid (grid_in grid false)) }
{
    clear(out);
    out[..tape.len()].copy_from_slice(tape);
    put_grid(&mut out[TAPE_ROOM..], grid)
}

// The head is made once more, in an array of its own, and compared.
pub fn same_head(tape: &[u8], grid: Grid, table: &[u8]) -> bool
    requires tape_len_bound { length tape.now ≤ tape_room }
    requires head_length_in_bounds { head_length ≤ length table.now }
    ensures { result
        ≡ same_bytes (take head_length table.now)
        (table_head tape.now (flat_grid (grid_in grid false))) }
{
    let mut head = [0u8; HEAD_LENGTH];
    write_head(&mut head, tape, grid);
    table[..HEAD_LENGTH] == head[..]
}
