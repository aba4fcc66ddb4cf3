// The full drawing of a solid: one height a pixel, in row order.
ghost use Rattle.std.specs.Prelude.{◌≡◌, true, ◌+◌, ◌*◌, ◌<◌, ◌≤◌, length};
ghost use Rattle.rules.specs.Tapes.{clause_limit};
ghost use Rattle.picture.specs.Shapes.{grid_in};
ghost use Rattle.full_drawing.specs.Full.{Drawable, Height, height_row, Put, FullDrawn};

use crate::count::full_count;
use crate::material::has_material;
use picture::grid::{Grid, sample};

// The height of pixel i of row j: every sample of its column is run, upward, and the last with material stays.
fn column(code: &[u64], grid: Grid, i: u32, j: u32) -> u16
    requires drawable { Drawable true code.now (grid_in grid true) }
    requires i_lt_width { (i < grid.width) × (j < grid.height) }
    ensures { Height code.now (grid_in grid true) i j result }
{
    let mut height = 0;
    for k in 0..grid.depth {
        let z = sample(grid.zorigin, grid.zstep, k);
        if has_material(code, grid, i, j, z) {
            height = (k + 1) as u16;
        }
    }
    height
}

// Row j, put from `from` on. One function with that of `flat` would take the type, the maker and the pixels of a place.
fn draw_row(code: &[u64], grid: Grid, j: u32, picture: &mut [u16], from: usize)
    requires drawable { Drawable true code.now (grid_in grid true) }
    requires j_lt_height { (j < grid.height) × (from + grid.width ≤ length picture.old) }
    ensures { Put code.now (height_row code.now (grid_in grid true) j) grid.width from
        picture.old picture.new }
{
    for i in 0..grid.width {
        picture[from + i as usize] = column(code, grid, i, j);
    }
}

// Returned is the count: clauses times samples.
pub fn draw_solid(code: &[u64], grid: Grid, picture: &mut [u16]) -> u64
    requires drawable { Drawable true code.now (grid_in grid true) }
    requires code_len_bound { length code.now ≤ clause_limit }
    requires picture_len { length picture.old ≡ grid.width * grid.height }
    ensures { FullDrawn true code.now (grid_in grid true) picture.new result }
{
    let mut from = 0;
    for j in 0..grid.height {
        draw_row(code, grid, j, picture, from);
        from += grid.width as usize;
    }
    full_count(code.len(), grid.width, grid.height, grid.depth)
}
