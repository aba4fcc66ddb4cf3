// Side 64: the tiles of the grid, and the whole drawing.
ghost use Rattle.std.specs.Prelude.{true, ◌*◌};
ghost use Rattle.rules.specs.Drawings.{size_limit, solid_bound};
ghost use Rattle.walk.specs.Children.{children_in};
ghost use Rattle.walk.specs.Cells.{region_in};
ghost use Rattle.walk.specs.Walks.{Visits, Folds, Walked};
ghost use Rattle.solid_blocks.specs.Sides.{below64};
ghost use Rattle.solid_tiles.specs.Tiles.{ForSolid, ForTiles};

use picture::grid::Grid;
use picture::heights::clear;
use solid_blocks::look::look;
use solid_blocks::sixteens::sixteens;
use tape::CLAUSE_LIMIT;
use walk::cell::{Cell, cell_at};
use walk::children::{child, child_count};
use walk::look::Seen;

// At most 266,305 runs: the tile, 64 of side 16, 4,096 of side 4 and 262,144 samples.
pub fn visit_tile(
    whole: &[u64],
    grid: Grid,
    cell: Cell,
    picture: &mut [u16],
    work: &mut [u8],
    first: &mut [u64],
    second: &mut [u64],
    third: &mut [u64],
    choices: &mut [[u8; 8]],
    below: &mut [[u8; 8]],
) -> u64
    requires { ForTiles 64 whole.now grid cell
        picture.old work.old first.old second.old third.old choices.old below.old }
    ensures { Visits true solid_bound whole.now grid below64 (region_in cell)
        picture.old picture.new result }
{
    let seen = look(whole, whole, grid, cell, picture, work, whole.len(), first);
    match seen {
        Seen::Done(count) => count,
        Seen::Open(start) => {
            let short = &first[start..];
            let inside = sixteens(
                whole, short, grid, cell, picture, work, second, third, choices, below,
            );
            whole.len() as u64 + inside
        }
    }
}

fn tiles(
    whole: &[u64],
    grid: Grid,
    parent: Cell,
    picture: &mut [u16],
    work: &mut [u8],
    first: &mut [u64],
    second: &mut [u64],
    third: &mut [u64],
    choices: &mut [[u8; 8]],
    below: &mut [[u8; 8]],
) -> u64
    requires { ForTiles size_limit whole.now grid parent
        picture.old work.old first.old second.old third.old choices.old below.old }
    ensures { Folds true (512 * solid_bound) whole.now grid below64 (children_in parent 64)
        picture.old picture.new result }
{
    let mut count: u64 = 0;
    let end = child_count(parent, 64);
    for m in 0..end {
        let cell = child(parent, 64, m);
        count += visit_tile(
            whole, grid, cell, picture, work, first, second, third, choices, below,
        );
    }
    count
}

// The whole drawing, whatever the picture held. The buffers of the levels are lent: a short tape is no longer than the
// tape. Choices are made here, for the regions of side 16 and for those of side 4 in them: 48 KiB each.
pub fn tile_solid(
    whole: &[u64],
    grid: Grid,
    picture: &mut [u16],
    work: &mut [u8],
    first: &mut [u64],
    second: &mut [u64],
    third: &mut [u64],
) -> u64
    requires { ForSolid whole.now grid picture.old work.old first.old second.old third.old }
    ensures { Walked true whole.now grid picture.new result }
{
    clear(picture);
    let all = cell_at(grid, grid.depth, 0, 0, 0, 512);
    let mut choices = [[0u8; 8]; CLAUSE_LIMIT];
    let mut below = [[0u8; 8]; CLAUSE_LIMIT];
    tiles(
        whole,
        grid,
        all,
        picture,
        work,
        first,
        second,
        third,
        &mut choices,
        &mut below,
    )
}
