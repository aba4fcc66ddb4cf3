// The pixels of a region, each by its own search.
ghost use Rattle.code.specs.Runs.{Lent};
ghost use Rattle.walk.specs.Cells.{region_in};
ghost use Rattle.swept_pixels.specs.Puts.{Draws};
ghost use Rattle.swept_pixels.specs.Searches.{Agrees, ForPixel, ForPixels};

use crate::put::put;
use crate::search::first_cover;
use fixed::clause::Sample;
use picture::grid::{Grid, sample};
use tape::SLOT_LIMIT;
use walk::cell::Cell;
use walk::children::{child, child_count};

fn sweep_pixel(
    code: &[u64],
    grid: Grid,
    pixel: Cell,
    path: &[i32],
    list: &[u16],
    picture: &mut [u16],
    slots: &mut [i32; SLOT_LIMIT],
)
    requires { ForPixel code.now grid pixel path.now list.now picture.old slots.old }
    ensures draws { Draws (Agrees code.now path.now grid list.now (region_in pixel))
        grid (region_in pixel) picture.old picture.new }
    ensures lent { Lent slots.new }
{
    let s = Sample {
        x: sample(grid.xorigin, grid.xstep, pixel.x),
        y: sample(grid.yorigin, grid.ystep, pixel.y),
        z: grid.zorigin,
    };
    let v = first_cover(code, s, path, list, slots);
    put(picture, grid, pixel, v);
}

// In slots of its own.
pub fn sweep_pixels(
    code: &[u64],
    grid: Grid,
    cell: Cell,
    path: &[i32],
    list: &[u16],
    picture: &mut [u16],
)
    requires { ForPixels code.now grid cell path.now list.now picture.old }
    ensures { Draws (Agrees code.now path.now grid list.now (region_in cell))
        grid (region_in cell) picture.old picture.new }
{
    let mut slots = [0i32; SLOT_LIMIT];
    for m in 0..child_count(cell, 1) {
        let pixel = child(cell, 1, m);
        sweep_pixel(code, grid, pixel, path, list, picture, &mut slots);
    }
}
