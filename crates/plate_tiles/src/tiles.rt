// Tiles by their number, row by row; those that a part touches are marked, and cleared.
ghost use Rattle.std.specs.Prelude.{◌≡◌, false, ℕ, ◌≤◌, length};
ghost use Rattle.rules.specs.Values.{when};
ghost use Rattle.rules.specs.Accepted.{Accepted};
ghost use Rattle.code.specs.Words.{tape_in};
ghost use Rattle.picture.specs.Shapes.{grid_in};
ghost use Rattle.patches.specs.Patches.{nothing, joined, PartSet};
ghost use Rattle.walk.specs.Cells.{Ready, region_in};
ghost use Rattle.plate_rules.specs.Plate.{touched};
ghost use Rattle.plate_tiles.specs.Tiles.{tile_limit, Sized, across, tile_count, ForTile, IsTile, ForPatch};
ghost use Rattle.plate_tiles.specs.Tiles.{ForRange, ForMarks, MarkedBy, Turn, Marked, TilesSet};

use code::run::run_ranges;
use patches::{Part, clear_part, join_part};
use picture::grid::Grid;
use walk::cell::{Cell, cell_at, flat_bounds};

// As many tiles as any picture has.
pub const TILE_LIMIT: usize = 64;

// How many tiles a row has, and how many there are.
fn columns(grid: Grid) -> u32
    requires { Sized grid }
    ensures { result ≡ across grid }
{
    (grid.width + 63) / 64
}

pub fn tile_count(grid: Grid) -> u32
    requires { Sized grid }
    ensures { result ≡ tile_count grid }
{
    (grid.height + 63) / 64 * columns(grid)
}

pub fn tile(grid: Grid, m: u32) -> Cell
    requires { ForTile grid m }
    ensures { IsTile grid m result }
{
    let row = columns(grid);
    cell_at(grid, 1, 64 * (m % row), 64 * (m / row), 0, 64)
}

// 1 where the part's range over a tile reaches below 0.
fn touches(code: &[u64], grid: Grid, cell: Cell, work: &mut [u8]) -> u8
    requires { ForRange code.now grid cell work.old }
    ensures { (n : ℕ) → Accepted (tape_in n code.now)
        → result ≡ when (touched (tape_in n code.now) (grid_in grid false) (region_in cell)) 1 }
{
    (run_ranges(code, flat_bounds(grid, cell), work).low < 0) as u8
}

pub fn mark_tiles(code: &[u64], grid: Grid, work: &mut [u8], marks: &mut [u8])
    requires { ForMarks code.now grid work.old marks.old }
    ensures { MarkedBy code.now grid (tile_count grid) marks.new }
{
    for m in 0..tile_count(grid) {
        marks[m as usize] = touches(code, grid, tile(grid, m), work);
    }
}

fn part_of(cell: Cell) -> Part
    requires { cell.y ≤ cell.yend }
    ensures x { result.x ≡ cell.x }
    ensures y { result.y ≡ cell.y }
    ensures xend { result.xend ≡ cell.xend }
    ensures yend { result.yend ≡ cell.yend }
{
    Part {
        x: cell.x as usize,
        y: cell.y as usize,
        xend: cell.xend as usize,
        yend: cell.yend as usize,
    }
}

pub fn clear_cell(picture: &mut [u8], grid: Grid, cell: Cell)
    requires { ForPatch grid cell picture.old }
    ensures { PartSet grid.width cell.x cell.xend cell.y cell.yend nothing
        picture.old picture.new }
{
    clear_part(picture, grid.width as usize, part_of(cell))
}

pub fn join_cell(other: &[u8], picture: &mut [u8], grid: Grid, cell: Cell)
    requires for_patch { ForPatch grid cell picture.old }
    requires other_len { length other.now ≡ length picture.old }
    ensures { PartSet grid.width cell.x cell.xend cell.y cell.yend
        (joined picture.old other.now) picture.old picture.new }
{
    join_part(other, picture, grid.width as usize, part_of(cell))
}

fn clear_turn(grid: Grid, m: u32, mark: u8, picture: &mut [u8])
    requires ready { Ready false grid picture.old }
    requires for_tile { ForTile grid m }
    ensures { TilesSet grid (Turn m mark) nothing picture.old picture.new }
{
    if mark == 0 {
        return;
    }
    clear_cell(picture, grid, tile(grid, m))
}

pub fn clear_tiles(grid: Grid, marks: &[u8], picture: &mut [u8])
    requires ready { Ready false grid picture.old }
    requires marks_len { length marks.now ≡ tile_limit }
    ensures { TilesSet grid (Marked marks.now (tile_count grid)) nothing
        picture.old picture.new }
{
    for m in 0..tile_count(grid) {
        clear_turn(grid, m, marks[m as usize], picture);
    }
}
