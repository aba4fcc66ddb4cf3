// The tiles of a rectangle, one after another.
ghost use Rattle.std.specs.Prelude.{◌≡◌, false, get_or};
ghost use Rattle.picture.specs.Shapes.{grid_in};
ghost use Rattle.rectangle.specs.Rectangles.{rectangle_in};
ghost use Rattle.table_rules.specs.Tables.{tiles_in};
ghost use Rattle.verdict_drawing.specs.Rects.{ForNumber, ForTiles, ForRect, TilesShared};

use picture::grid::Grid;
use rectangle::{Rectangle, tiles_along};
use sweep::BLOCK;
use tape::CLAUSE_LIMIT;
use verdict_tiles::tile::table_tile;

// The number of the rectangle's tile k.
fn number_in(grid: Grid, rectangle: Rectangle, k: u32) -> u32
    requires { ForNumber grid rectangle k }
    ensures { result ≡ get_or (tiles_in (grid_in grid false) (rectangle_in rectangle)) k 0 }
{
    let row = rectangle.row + k / rectangle.columns;
    let column = rectangle.column + k % rectangle.columns;
    row * tiles_along(grid.width) as u32 + column
}

fn table_tiles(
    whole: &[u64],
    grid: Grid,
    rectangle: Rectangle,
    table: &mut [u8],
    picture: &mut [u8],
    work: &mut [u8],
    first: &mut [u64],
    second: &mut [u64],
    slots: &mut [[i32; 8]; BLOCK],
    choices: &mut [[u8; 8]],
) -> u64
    requires { ForTiles whole.now grid rectangle table.old picture.old work.old first.old second.old
        slots.old choices.old }
    ensures { TilesShared whole.now grid rectangle table.old table.new
        picture.old picture.new result }
{
    let mut count: u64 = 0;
    for k in 0..rectangle.rows * rectangle.columns {
        let number = number_in(grid, rectangle, k);
        count += table_tile(
            whole, grid, number, table, picture, work, first, second, slots, choices,
        );
    }
    count
}

pub fn rectangle_tiles(
    whole: &[u64],
    grid: Grid,
    rectangle: Rectangle,
    table: &mut [u8],
    picture: &mut [u8],
    work: &mut [u8],
    first: &mut [u64],
    second: &mut [u64],
) -> u64
    requires { ForRect whole.now grid rectangle table.old picture.old work.old first.old second.old }
    ensures { TilesShared whole.now grid rectangle table.old table.new
        picture.old picture.new result }
{
    let mut slots = [[0i32; 8]; BLOCK];
    let mut choices = [[0u8; 8]; CLAUSE_LIMIT];
    table_tiles(
        whole,
        grid,
        rectangle,
        table,
        picture,
        work,
        first,
        second,
        &mut slots,
        &mut choices,
    )
}
