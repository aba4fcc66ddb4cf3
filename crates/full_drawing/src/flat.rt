// The full drawing of a flat picture: one bit a pixel, whole bytes in row order.
ghost use Rattle.std.specs.Prelude.{◌≡◌, false, ◌+◌, ◌*◌, ◌<◌, ◌≤◌, length};
ghost use Rattle.rules.specs.Tapes.{clause_limit};
ghost use Rattle.rules.specs.Pictures.{stride as stride_of};
ghost use Rattle.picture.specs.Shapes.{grid_in};
ghost use Rattle.full_drawing.specs.Full.{Drawable, Byte, byte_row, Put, FullDrawn};

use crate::count::full_count;
use crate::material::has_material;
use picture::bits::{stride, with_pixel};
use picture::grid::Grid;

// The byte of the pixels of row j from pixel i on: 8, or those that are left.
fn row_byte(code: &[u64], grid: Grid, i: u32, j: u32) -> u8
    requires drawable { Drawable false code.now (grid_in grid false) }
    requires i_lt_width { (i < grid.width) × (j < grid.height) }
    ensures { Byte code.now (grid_in grid false) i j result }
{
    let count = (grid.width - i).min(8);
    let mut byte = 0;
    for k in 0..count {
        let on = has_material(code, grid, i + k, j, grid.zorigin);
        byte = with_pixel(byte, k, on);
    }
    byte
}

// Row j, put from byte `from` on.
fn draw_row(code: &[u64], grid: Grid, j: u32, picture: &mut [u8], from: usize, row: usize)
    requires drawable { Drawable false code.now (grid_in grid false) }
    requires row_value { (row ≡ stride_of grid.width) × (j < grid.height) × (from + row ≤ length picture.old) }
    ensures { Put code.now (byte_row code.now (grid_in grid false) j) row from
        picture.old picture.new }
{
    for c in 0..row {
        picture[from + c] = row_byte(code, grid, (8 * c) as u32, j);
    }
}

// Returned is the count: clauses times samples.
pub fn draw_flat(code: &[u64], grid: Grid, picture: &mut [u8]) -> u64
    requires drawable { Drawable false code.now (grid_in grid false) }
    requires code_len_bound { length code.now ≤ clause_limit }
    requires picture_len { length picture.old ≡ grid.height * stride_of grid.width }
    ensures { FullDrawn false code.now (grid_in grid false) picture.new result }
{
    let width = grid.width as usize;
    let row = stride(width);
    let mut from = 0;
    for j in 0..grid.height {
        draw_row(code, grid, j, picture, from, row);
        from += row;
    }
    full_count(code.len(), grid.width, grid.height, 1)
}
