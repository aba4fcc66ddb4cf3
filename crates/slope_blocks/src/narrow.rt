// The short tape of a block: of the box that its visible samples lie in.
ghost use Rattle.fixed.specs.Shapes.{box_in};
ghost use Rattle.slope_blocks.specs.Narrow.{ForBounds, ForNarrow, BlockBox, Narrowed};

use fixed::clause::Bounds;
use picture::grid::Grid;
use slope_pixels::block::{Block, Layers};
use walk::cell::span;
use walk::judge::cut_over;

fn bounds(grid: Grid, block: Block, layers: Layers) -> Bounds
    requires { ForBounds grid block layers }
    ensures { BlockBox grid block layers (box_in result) }
{
    Bounds {
        xs: span(grid.xorigin, grid.xstep, block.x, block.xend),
        ys: span(grid.yorigin, grid.ystep, block.y, block.yend),
        zs: span(grid.zorigin, grid.zstep, layers.from, layers.end),
    }
}

// Returned is where the block's words start.
pub fn narrow(
    whole: &[u64],
    code: &[u64],
    grid: Grid,
    block: Block,
    layers: Layers,
    work: &mut [u8],
    base: usize,
    next: &mut [u64],
) -> usize
    requires { ForNarrow whole.now code.now grid block layers work.old base next.old }
    ensures { Narrowed whole.now code.now grid block layers
        next.new result }
{
    cut_over(whole, code, bounds(grid, block, layers), work, base, next)
}
