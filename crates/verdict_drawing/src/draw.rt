// A rectangle drawn on a blank picture of the call's own, and its bytes laid into the lent one.
ghost use Rattle.std.specs.Prelude.{◌≡◌, false, ◌≤◌, length};
ghost use Rattle.rules.specs.Tapes.{clause_limit};
ghost use Rattle.picture.specs.Shapes.{grid_in};
ghost use Rattle.walk.specs.Cells.{size_in};
ghost use Rattle.rectangle.specs.Rectangles.{rectangle_in};
ghost use Rattle.table_rules.specs.Tables.{flat_grid, laid};
ghost use Rattle.verdict_drawing.specs.Rects.{picture_limit, InGrid, ForTurn, TurnDrawn, LaidOver};
ghost use Rattle.verdict_drawing.specs.Rectangles.{ForRectangle, RectangleDrawn};

use crate::tiles::rectangle_tiles;
use code::unpack::unpack_words;
use patches::copy_part;
use picture::bits::clear;
use picture::grid::Grid;
use rectangle::Rectangle;
use tape::CLAUSE_LIMIT;

// As many bytes as any flat picture has.
const PICTURE_LIMIT: usize = 32768;

// A flat picture reads neither depth nor the third step: in the table both are 0.
fn flat_grid(grid: Grid) -> Grid
    ensures { grid_in result false ≡ flat_grid (grid_in grid false) }
{
    Grid {
        width: grid.width,
        height: grid.height,
        depth: 0,
        xorigin: grid.xorigin,
        yorigin: grid.yorigin,
        zorigin: grid.zorigin,
        xstep: grid.xstep,
        ystep: grid.ystep,
        zstep: 0,
    }
}

// The rectangle's tiles, whatever the picture held.
fn turn_tiles(
    whole: &[u64],
    grid: Grid,
    rectangle: Rectangle,
    table: &mut [u8],
    picture: &mut [u8],
    work: &mut [u8],
    first: &mut [u64],
    second: &mut [u64],
) -> u64
    requires { ForTurn whole.now grid rectangle table.old picture.old work.old first.old second.old }
    ensures { TurnDrawn whole.now grid rectangle table.old table.new
        picture.new result }
{
    clear(picture);
    rectangle_tiles(whole, grid, rectangle, table, picture, work, first, second)
}

// "Picture bytes outside the rectangle stay."
fn lay(drawn: &[u8], picture: &mut [u8], grid: Grid, rectangle: Rectangle)
    requires in_grid { InGrid grid rectangle }
    requires picture_len { length picture.old ≡ size_in false grid }
    requires drawn_len { length drawn.now ≡ length picture.old }
    ensures { picture.new
        ≡ laid (grid_in grid false) (rectangle_in rectangle) drawn.now picture.old }
{
    let x = 64 * rectangle.column;
    let y = 64 * rectangle.row;
    let xend = grid.width.min(x + 64 * rectangle.columns);
    let yend = grid.height.min(y + 64 * rectangle.rows);
    copy_part(
        drawn,
        picture,
        grid.width as usize,
        x as usize,
        y as usize,
        xend as usize,
        yend as usize,
    )
}

// `apart` is a picture of the same size.
fn draw_over(
    whole: &[u64],
    grid: Grid,
    rectangle: Rectangle,
    table: &mut [u8],
    picture: &mut [u8],
    work: &mut [u8],
    first: &mut [u64],
    second: &mut [u64],
    apart: &mut [u8],
) -> u64
    requires for_turn { ForTurn whole.now grid rectangle table.old picture.old work.old first.old second.old }
    requires apart_len { length apart.old ≡ length picture.old }
    ensures { LaidOver whole.now grid rectangle table.old table.new
        picture.old picture.new result }
{
    let count = turn_tiles(whole, grid, rectangle, table, apart, work, first, second);
    lay(apart, picture, grid, rectangle);
    count
}

// `room` has the bytes of any flat picture.
fn draw_in(
    whole: &[u64],
    grid: Grid,
    rectangle: Rectangle,
    table: &mut [u8],
    picture: &mut [u8],
    work: &mut [u8],
    first: &mut [u64],
    second: &mut [u64],
    room: &mut [u8],
) -> u64
    requires for_turn { ForTurn whole.now grid rectangle table.old picture.old work.old first.old second.old }
    requires picture_limit_in_bounds { picture_limit ≤ length room.old }
    ensures { LaidOver whole.now grid rectangle table.old table.new
        picture.old picture.new result }
{
    let size = picture.len();
    draw_over(
        whole,
        grid,
        rectangle,
        table,
        picture,
        work,
        first,
        second,
        &mut room[..size],
    )
}

fn draw_apart(
    whole: &[u64],
    grid: Grid,
    rectangle: Rectangle,
    table: &mut [u8],
    picture: &mut [u8],
    work: &mut [u8],
    first: &mut [u64],
    second: &mut [u64],
) -> u64
    requires { ForTurn whole.now grid rectangle table.old picture.old work.old first.old second.old }
    ensures { LaidOver whole.now grid rectangle table.old table.new
        picture.old picture.new result }
{
    let mut room = [0u8; PICTURE_LIMIT];
    draw_in(
        whole, grid, rectangle, table, picture, work, first, second, &mut room,
    )
}

// Buffers are lent: for the words, and for those of each level.
fn draw_words(
    tape: &[u8],
    grid: Grid,
    rectangle: Rectangle,
    table: &mut [u8],
    picture: &mut [u8],
    work: &mut [u8],
    words: &mut [u64],
    first: &mut [u64],
    second: &mut [u64],
) -> u64
    requires for_rectangle { ForRectangle tape.now (grid_in grid false) (rectangle_in rectangle) table.old
        (length picture.old) (length work.old) }
    requires words_len { length words.old ≡ clause_limit }
    requires first_len { length first.old ≡ clause_limit }
    requires second_len { length second.old ≡ clause_limit }
    ensures { RectangleDrawn tape.now (grid_in grid false) (rectangle_in rectangle)
        table.old table.new picture.old picture.new result }
{
    let n = unpack_words(tape, words);
    draw_apart(
        &words[..n],
        grid,
        rectangle,
        table,
        picture,
        work,
        first,
        second,
    )
}

pub fn draw_rectangle(
    tape: &[u8],
    grid: Grid,
    rectangle: Rectangle,
    table: &mut [u8],
    picture: &mut [u8],
    work: &mut [u8],
) -> u64
    requires { ForRectangle tape.now (flat_grid (grid_in grid false)) (rectangle_in rectangle) table.old
        (length picture.old) (length work.old) }
    ensures { RectangleDrawn tape.now (flat_grid (grid_in grid false)) (rectangle_in rectangle)
        table.old table.new picture.old picture.new result }
{
    let flat = flat_grid(grid);
    let mut words = [0u64; CLAUSE_LIMIT];
    let mut first = [0u64; CLAUSE_LIMIT];
    let mut second = [0u64; CLAUSE_LIMIT];
    draw_words(
        tape,
        flat,
        rectangle,
        table,
        picture,
        work,
        &mut words,
        &mut first,
        &mut second,
    )
}
