// A region with its ends in the grid, and its box. A flat region is the one layer with z index 0.
ghost use Rattle.std.specs.Prelude.{◌≡◌, true, false};
ghost use Rattle.rules.specs.Drawings.{region, lesser as lesserOf};
ghost use Rattle.fixed.specs.Shapes.{box_in, range_in};
ghost use Rattle.walk.specs.Cells.{ForCell, ForBox, CellOf, SpanIn, span_of, ForBounds, BoundsOf, CellBox};

use fixed::clause::Bounds;
use fixed::span::Span;
use picture::grid::{Grid, sample};

// First index and past the last one on each axis, cut off at the grid's edge, and the side before that.
#[derive(Clone, Copy)]
pub struct Cell {
    pub x: u32,
    pub xend: u32,
    pub y: u32,
    pub yend: u32,
    pub z: u32,
    pub zend: u32,
    pub side: u32,
}

// The lesser of two indices, as the rules have it.
pub fn lesser(a: u32, b: u32) -> u32
    ensures { result ≡ lesserOf a b }
{
    a.min(b)
}

// `layers` is the grid's depth in a solid, and 1 in a flat drawing.
pub fn cell_at(grid: Grid, layers: u32, x: u32, y: u32, z: u32, side: u32) -> Cell
    requires { ForCell layers grid x y z side }
    ensures { CellOf layers grid (region x y z side) result }
{
    Cell {
        x,
        xend: lesser(grid.width, x + side),
        y,
        yend: lesser(grid.height, y + side),
        z,
        zend: lesser(layers, z + side),
        side,
    }
}

// The samples of an axis from the index `from` to the one before `end`.
pub fn span(origin: i32, step: i32, from: u32, end: u32) -> Span
    requires { SpanIn origin step from end }
    ensures { range_in result ≡ span_of origin step from end }
{
    Span {
        low: sample(origin, step, from),
        high: sample(origin, step, end - 1),
    }
}

// The box of a region, with its range of z.
fn bounds(grid: Grid, c: Cell, zs: Span) -> Bounds
    requires { ForBounds grid c }
    ensures { BoundsOf grid c (range_in zs) (box_in result) }
{
    Bounds {
        xs: span(grid.xorigin, grid.xstep, c.x, c.xend),
        ys: span(grid.yorigin, grid.ystep, c.y, c.yend),
        zs,
    }
}

// The box of a solid's region.
pub fn solid_bounds(grid: Grid, c: Cell) -> Bounds
    requires { ForBox true grid c }
    ensures { CellBox true grid c (box_in result) }
{
    let zs = span(grid.zorigin, grid.zstep, c.z, c.zend);
    bounds(grid, c, zs)
}

// The box of a flat region: its one z is the grid's, as given.
pub fn flat_bounds(grid: Grid, c: Cell) -> Bounds
    requires { ForBox false grid c }
    ensures { CellBox false grid c (box_in result) }
{
    let z = grid.zorigin;
    bounds(grid, c, Span { low: z, high: z })
}
