// The blocks of a side in a block: as the regions of one layer. The loops over them stay two: one function was tried that
// takes what is done with a block as an FnMut closure, and what its calls leave in the slices that it borrows did not prove.
ghost use Rattle.std.specs.Prelude.{◌≡◌, ◌<◌, length};
ghost use Rattle.walk.specs.Children.{Parent, children_in};
ghost use Rattle.slope_blocks.specs.Blocks.{cell_of, PartOf};

use slope_pixels::block::Block;
use walk::cell::Cell;
use walk::children::{child, child_count};

// The region of a block of at most `side` by `side` pixels.
fn layer_of(block: Block, side: u32) -> Cell
    ensures { result ≡ cell_of side block }
{
    Cell {
        x: block.x,
        xend: block.xend,
        y: block.y,
        yend: block.yend,
        z: 0,
        zend: 1,
        side,
    }
}

// How many blocks of side `part` such a block has, and the one with number m.
pub fn part_count(block: Block, side: u32, part: u32) -> u32
    requires { Parent (cell_of side block) part }
    ensures { result ≡ length (children_in (cell_of side block) part) }
{
    child_count(layer_of(block, side), part)
}

pub fn part_of(block: Block, side: u32, part: u32, m: u32) -> Block
    requires parent { Parent (cell_of side block) part }
    requires more { m < length (children_in (cell_of side block) part) }
    ensures { PartOf side part block m result }
{
    Block::from(child(layer_of(block, side), part, m))
}
