// Side 64: one tile, the tiles of a rectangle, and the whole drawing.
ghost use Rattle.std.specs.Prelude.{◌≡◌, false, ◌+◌, ◌*◌, length};
ghost use Rattle.sweep.specs.Chunks.{block_rows};
ghost use Rattle.rules.specs.Drawings.{flat_bound};
ghost use Rattle.picture.specs.Parts.{Apart};
ghost use Rattle.walk.specs.Cells.{region_in};
ghost use Rattle.walk.specs.Children.{children_in};
ghost use Rattle.walk.specs.Walks.{Visits, Folds, Walked};
ghost use Rattle.flat_eights.specs.Sides.{below64};
ghost use Rattle.flat_tiles.specs.Rects.{Lent, ForTile, ForRect, ForTiles, ForSettle, TileSettled, TilesApart};

use child_lanes::run_children;
use flat_eights::eights::eights;
use flat_eights::look::{look, look_lane};
use lane_judge::lane_at;
use picture::bits::clear;
use picture::grid::Grid;
use range_sweep::ENDS;
use sweep::BLOCK;
use tape::CLAUSE_LIMIT;
use walk::cell::{Cell, cell_at};
use walk::children::{child, child_count};
use walk::look::Seen;

// What the look at a tile says is done: of a tile that is cut the regions of side 8 are visited, with its short tape.
fn settle_tile(
    whole: &[u64],
    grid: Grid,
    cell: Cell,
    seen: Seen,
    picture: &mut [u8],
    work: &mut [u8],
    first: &[u64],
    second: &mut [u64],
    slots: &mut [[i32; 8]; BLOCK],
    choices: &mut [[u8; 8]],
) -> u64
    requires { ForSettle whole.now grid cell seen picture.old work.old first.now second.old slots.old
        choices.old }
    ensures tile_settled { TileSettled whole.now grid cell seen work.old first.now
        picture.old picture.new result }
    ensures slots_len { length slots.new ≡ block_rows }
    ensures apart { Apart grid.width cell.x (cell.x + 64) cell.y (cell.y + 64)
        picture.old picture.new }
{
    match seen {
        Seen::Done(count) => count,
        Seen::Open(start) => {
            let short = &first[start..];
            let inside = eights(
                whole, short, grid, cell, picture, work, second, slots, choices,
            );
            whole.len() as u64 + inside
        }
    }
}

// At most 4,161 runs: the tile, 64 of side 8 and 4,096 samples.
pub fn visit_tile(
    whole: &[u64],
    grid: Grid,
    cell: Cell,
    picture: &mut [u8],
    work: &mut [u8],
    first: &mut [u64],
    second: &mut [u64],
    slots: &mut [[i32; 8]; BLOCK],
    choices: &mut [[u8; 8]],
) -> u64
    requires { ForTile whole.now grid cell picture.old work.old first.old second.old slots.old
        choices.old }
    ensures visits { Visits false flat_bound whole.now grid below64 (region_in cell)
        picture.old picture.new result }
    ensures slots_len { length slots.new ≡ block_rows }
    ensures apart { Apart grid.width cell.x (cell.x + 64) cell.y (cell.y + 64)
        picture.old picture.new }
{
    let seen = look(whole, whole, grid, cell, picture, work, whole.len(), first);
    settle_tile(
        whole, grid, cell, seen, picture, work, first, second, slots, choices,
    )
}

// The tiles eight by eight. Their own choices are apart from those of their regions: a run outlives its first tile.
fn tiles(
    whole: &[u64],
    grid: Grid,
    parent: Cell,
    picture: &mut [u8],
    work: &mut [u8],
    first: &mut [u64],
    second: &mut [u64],
    slots: &mut [[i32; 8]; BLOCK],
    choices: &mut [[u8; 8]],
    own: &mut [[u8; 8]],
) -> u64
    requires { ForTiles whole.now grid parent picture.old work.old first.old second.old slots.old
        choices.old own.old }
    ensures folds { Folds false (64 * flat_bound) whole.now grid below64 (children_in parent 64)
        picture.old picture.new result }
    ensures slots_len { length slots.new ≡ block_rows }
    ensures tiles_apart { TilesApart grid parent picture.old picture.new }
{
    let mut ends = [[0i32; 8]; ENDS];
    let mut count: u64 = 0;
    let end = child_count(parent, 64);
    let mut result = 0;
    for m in 0..end {
        result = run_children(whole, grid, parent, 64, m, end, result, &mut ends, own);
        let cell = child(parent, 64, m);
        let lane = lane_at(&ends, result, (m % 8) as usize);
        let seen = look_lane(
            whole,
            whole,
            grid,
            cell,
            lane,
            own,
            picture,
            work,
            whole.len(),
            first,
        );
        count += settle_tile(
            whole, grid, cell, seen, picture, work, first, second, slots, choices,
        );
    }
    count
}

// The tiles of a rectangle, onto a picture whose bytes there are 0; every other byte stays as it is. The buffers of the
// levels are lent: a short tape is no longer than the tape.
pub fn tiles_in(
    whole: &[u64],
    grid: Grid,
    parent: Cell,
    picture: &mut [u8],
    work: &mut [u8],
    first: &mut [u64],
    second: &mut [u64],
) -> u64
    requires { ForRect whole.now grid parent picture.old work.old first.old second.old }
    ensures folds { Folds false (64 * flat_bound) whole.now grid below64 (children_in parent 64)
        picture.old picture.new result }
    ensures tiles_apart { TilesApart grid parent picture.old picture.new }
{
    let mut slots = [[0i32; 8]; BLOCK];
    let mut choices = [[0u8; 8]; CLAUSE_LIMIT];
    let mut own = [[0u8; 8]; CLAUSE_LIMIT];
    tiles(
        whole,
        grid,
        parent,
        picture,
        work,
        first,
        second,
        &mut slots,
        &mut choices,
        &mut own,
    )
}

// The whole drawing, whatever the picture held.
pub fn tile_flat(
    whole: &[u64],
    grid: Grid,
    picture: &mut [u8],
    work: &mut [u8],
    first: &mut [u64],
    second: &mut [u64],
) -> u64
    requires { Lent whole.now grid picture.old work.old first.old second.old }
    ensures { Walked false whole.now grid picture.new result }
{
    clear(picture);
    let all = cell_at(grid, 1, 0, 0, 0, 512);
    tiles_in(whole, grid, all, picture, work, first, second)
}
