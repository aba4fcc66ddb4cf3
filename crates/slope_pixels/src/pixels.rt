// The pixels of a block, each run on values with slopes at its visible sample.
ghost use Rattle.std.specs.Prelude.{◌≡◌, pos, length, replicate};
ghost use Rattle.slope_runs.specs.Shapes.{slots_in, Sized};
ghost use Rattle.slope_pixels.specs.Shades.{put_at, pixel_at, Shading};
ghost use Rattle.slope_pixels.specs.Asked.{PlaceIn, ForPixel, ForRow, ForRows};

use crate::block::{Block, Layers};
use fixed::clause::Sample;
use picture::grid::{Grid, sample};
use slope_runs::run::run_slopes;
use slope_runs::slots::SlopeSlots;
use tape::SLOT_LIMIT;

// The slopes of a picture without material.
pub fn clear(slopes: &mut [i32])
    ensures { slopes.new ≡ replicate (length slopes.old) (pos 0) }
{
    slopes.fill(0);
}

// Three numbers at the place of the pixel `at`, one of at most 512 by 512.
fn put(slopes: &mut [i32], at: usize, x: i32, y: i32, z: i32)
    requires { PlaceIn slopes.old at }
    ensures { slopes.new ≡ put_at slopes.old at x y z }
{
    slopes[3 * at] = x;
    slopes[3 * at + 1] = y;
    slopes[3 * at + 2] = z;
}

// Column and row.
#[derive(Clone, Copy)]
pub struct Pixel {
    pub x: u32,
    pub y: u32,
}

// A pixel whose height is not in the window is passed over.
fn shade_pixel(
    code: &[u64],
    grid: Grid,
    picture: &[u16],
    slopes: &mut [i32],
    pixel: Pixel,
    window: Layers,
    slots: &mut SlopeSlots,
)
    requires { ForPixel code.now grid picture.now slopes.old pixel
        (slots_in slots.old) }
    ensures shading { Shading code.now grid picture.now window
        (pixel_at pixel.x pixel.y) (pixel_at pixel.x pixel.y)
        slopes.old slopes.new }
    ensures sized { Sized (slots_in slots.new) }
{
    let at = (pixel.y * grid.width + pixel.x) as usize;
    let height = picture[at] as u32;
    if height <= window.from || window.end < height {
        return;
    }
    let s = Sample {
        x: sample(grid.xorigin, grid.xstep, pixel.x),
        y: sample(grid.yorigin, grid.ystep, pixel.y),
        z: sample(grid.zorigin, grid.zstep, height - 1),
    };
    let found = run_slopes(code, s, slots);
    put(slopes, at, found.x, found.y, found.z);
}

// One row of pixels.
fn shade_row(
    code: &[u64],
    grid: Grid,
    picture: &[u16],
    slopes: &mut [i32],
    row: Block,
    window: Layers,
    slots: &mut SlopeSlots,
)
    requires { ForRow code.now grid picture.now slopes.old row
        (slots_in slots.old) }
    ensures shading { Shading code.now grid picture.now window row row
        slopes.old slopes.new }
    ensures sized { Sized (slots_in slots.new) }
{
    for x in row.x..row.xend {
        let pixel = Pixel { x, y: row.y };
        shade_pixel(code, grid, picture, slopes, pixel, window, slots);
    }
}

// The rows of a block, in slots of its own.
pub fn shade_rows(
    code: &[u64],
    grid: Grid,
    picture: &[u16],
    slopes: &mut [i32],
    block: Block,
    window: Layers,
)
    requires { ForRows code.now grid picture.now slopes.old block }
    ensures { Shading code.now grid picture.now window block block
        slopes.old slopes.new }
{
    let mut slots = SlopeSlots {
        values: [0i32; SLOT_LIMIT],
        xs: [0i32; SLOT_LIMIT],
        ys: [0i32; SLOT_LIMIT],
        zs: [0i32; SLOT_LIMIT],
    };
    for y in block.y..block.yend {
        let row = Block {
            x: block.x,
            xend: block.xend,
            y,
            yend: y + 1,
        };
        shade_row(code, grid, picture, slopes, row, window, &mut slots);
    }
}
