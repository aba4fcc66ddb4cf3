// One number at a pixel, or at every pixel of a region.
ghost use Rattle.walk.specs.Cells.{region_in};
ghost use Rattle.swept_pixels.specs.Puts.{Draws, Constantly, ForPut, ForFill};

use picture::grid::Grid;
use walk::cell::Cell;
use walk::children::{child, child_count};

pub fn put(picture: &mut [u16], grid: Grid, pixel: Cell, v: u16)
    requires { ForPut grid pixel picture.old }
    ensures { Draws (Constantly v grid (region_in pixel)) grid (region_in pixel)
        picture.old picture.new }
{
    let at = (pixel.y * grid.width + pixel.x) as usize;
    picture[at] = v;
}

pub fn fill(picture: &mut [u16], grid: Grid, cell: Cell, v: u16)
    requires { ForFill grid cell picture.old }
    ensures { Draws (Constantly v grid (region_in cell)) grid (region_in cell)
        picture.old picture.new }
{
    for m in 0..child_count(cell, 1) {
        put(picture, grid, child(cell, 1, m), v);
    }
}
