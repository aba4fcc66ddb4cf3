// The rows of a region in the picture: the test whether it is hidden, and its filling.
ghost use Rattle.std.specs.Prelude.{true};
ghost use Rattle.picture.specs.Shapes.{grid_in};
ghost use Rattle.walk.specs.Cells.{region_in};
ghost use Rattle.walk.specs.Draws.{Fills, Hidden, Same};
ghost use Rattle.solid_samples.specs.Samples.{ForRows};

use picture::grid::Grid;
use picture::heights::{raise_rows, rows_high};
use walk::cell::Cell;

pub fn is_hidden(grid: Grid, c: Cell, picture: &[u16]) -> bool
    requires { ForRows grid c picture.now }
    ensures { Hidden Same (grid_in grid true) (region_in c) picture.now result }
{
    let rows = (c.yend - c.y) as usize;
    let from = (c.y * grid.width + c.x) as usize;
    let wide = (c.xend - c.x) as usize;
    let top = c.zend as u16;
    rows_high(picture, rows, grid.width as usize, from, wide, top)
}

pub fn fill(grid: Grid, c: Cell, picture: &mut [u16])
    requires { ForRows grid c picture.old }
    ensures { Fills Same (grid_in grid true) (region_in c) picture.old picture.new }
{
    let rows = (c.yend - c.y) as usize;
    let from = (c.y * grid.width + c.x) as usize;
    let wide = (c.xend - c.x) as usize;
    raise_rows(
        picture,
        rows,
        grid.width as usize,
        from,
        wide,
        c.zend as u16,
    );
}
