// A part's drawing of the marked tiles, joined to the picture: drawn on a blank picture of the same size, one tile after
// another, which is blank again behind each.
ghost use Rattle.std.specs.Prelude.{◌≡◌, false, ℕ, replicate};
ghost use Rattle.rules.specs.Accepted.{Accepted};
ghost use Rattle.code.specs.Words.{tape_in};
ghost use Rattle.walk.specs.Cells.{size_in};
ghost use Rattle.plate_tiles.specs.Tiles.{tile_count, Turn, Marked, TilesSet};
ghost use Rattle.plate_tiles.specs.Joins.{with_part, ForJoin, ForJoins};

use crate::tiles::{clear_cell, join_cell, tile, tile_count};
use flat_tiles::tiles::visit_tile;
use picture::grid::Grid;
use sweep::BLOCK;
use tape::CLAUSE_LIMIT;

fn join_turn(
    code: &[u64],
    grid: Grid,
    m: u32,
    mark: u8,
    blank: &mut [u8],
    picture: &mut [u8],
    work: &mut [u8],
    first: &mut [u64],
    second: &mut [u64],
)
    requires { ForJoin code.now grid m blank.old picture.old work.old first.old second.old }
    ensures by_index { (n : ℕ) → Accepted (tape_in n code.now)
        → TilesSet grid (Turn m mark) (with_part picture.old (tape_in n code.now) grid)
        picture.old picture.new }
    ensures blank_after { blank.new ≡ replicate (size_in false grid) 0 }
{
    if mark == 0 {
        return;
    }
    let cell = tile(grid, m);
    let mut slots = [[0i32; 8]; BLOCK];
    let mut choices = [[0u8; 8]; CLAUSE_LIMIT];
    visit_tile(
        code,
        grid,
        cell,
        blank,
        work,
        first,
        second,
        &mut slots,
        &mut choices,
    );
    join_cell(blank, picture, grid, cell);
    clear_cell(blank, grid, cell)
}

pub fn join_tiles(
    code: &[u64],
    grid: Grid,
    marks: &[u8],
    blank: &mut [u8],
    picture: &mut [u8],
    work: &mut [u8],
    first: &mut [u64],
    second: &mut [u64],
)
    requires { ForJoins code.now grid marks.now blank.old picture.old work.old first.old second.old }
    ensures by_index { (n : ℕ) → Accepted (tape_in n code.now)
        → TilesSet grid (Marked marks.now (tile_count grid))
        (with_part picture.old (tape_in n code.now) grid)
        picture.old picture.new }
    ensures blank_after { blank.new ≡ replicate (size_in false grid) 0 }
{
    for m in 0..tile_count(grid) {
        join_turn(
            code,
            grid,
            m,
            marks[m as usize],
            blank,
            picture,
            work,
            first,
            second,
        );
    }
}
