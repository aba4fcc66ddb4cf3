// Side 16: blocks of side 16 of the picture, with a short tape for each window of layers, which the blocks of side 4
// start from; and the whole picture.
ghost use Rattle.std.specs.Prelude.{◌≤◌, ◌<◌};
ghost use Rattle.rules.specs.Drawings.{size_limit};
ghost use Rattle.slope_pixels.specs.Shades.{all_of, Shading};
ghost use Rattle.slope_blocks.specs.Narrow.{Shaded};
ghost use Rattle.slope_blocks.specs.Blocks.{Lent, ForSixteens, ForWindow};

use crate::fours::fours;
use crate::narrow::narrow;
use crate::parts::{part_count, part_of};
use picture::grid::Grid;
use slope_pixels::block::{Block, Layers, seen_in};
use slope_pixels::pixels::clear;

// The pixels of a block whose heights lie in a window.
fn shade_window(
    whole: &[u64],
    grid: Grid,
    block: Block,
    window: Layers,
    picture: &[u16],
    slopes: &mut [i32],
    work: &mut [u8],
    first: &mut [u64],
    second: &mut [u64],
)
    requires { ForWindow whole.now grid block window picture.now slopes.old
        work.old first.old second.old }
    ensures { Shading whole.now grid picture.now window block block
        slopes.old slopes.new }
{
    let start = narrow(whole, whole, grid, block, window, work, whole.len(), first);
    let short = &first[start..];
    fours(
        whole, short, grid, block, window, picture, slopes, work, second,
    );
}

// Where the highest 32 of some layers begin, or all of them.
fn upper_from(layers: Layers) -> u32
    requires { layers.from < layers.end }
    ensures { (layers.from ≤ result) × (result < layers.end) }
{
    layers.from.max(layers.end.saturating_sub(32))
}

// Windows of at most 32 layers, from the greatest height down: heights that no pixel has are passed over.
fn visit_sixteen(
    whole: &[u64],
    grid: Grid,
    block: Block,
    picture: &[u16],
    slopes: &mut [i32],
    work: &mut [u8],
    first: &mut [u64],
    second: &mut [u64],
)
    requires { ForSixteens 16 whole.now grid block picture.now slopes.old
        work.old first.old second.old }
    ensures { Shading whole.now grid picture.now (all_of grid) block block
        slopes.old slopes.new }
{
    let all = Layers {
        from: 0,
        end: grid.depth,
    };
    let mut left = seen_in(picture, grid, block, all);
    // No index is counted: each turn goes on to the next window that has heights.
    while left.from < left.end {
        let from = upper_from(left);
        let window = Layers {
            from,
            end: left.end,
        };
        shade_window(
            whole, grid, block, window, picture, slopes, work, first, second,
        );
        let below = Layers {
            from: left.from,
            end: from,
        };
        left = seen_in(picture, grid, block, below);
    }
}

fn sixteens(
    whole: &[u64],
    grid: Grid,
    block: Block,
    picture: &[u16],
    slopes: &mut [i32],
    work: &mut [u8],
    first: &mut [u64],
    second: &mut [u64],
)
    requires { ForSixteens size_limit whole.now grid block picture.now slopes.old
        work.old first.old second.old }
    ensures { Shading whole.now grid picture.now (all_of grid) block block
        slopes.old slopes.new }
{
    for m in 0..part_count(block, 512, 16) {
        let sixteen = part_of(block, 512, 16, m);
        visit_sixteen(whole, grid, sixteen, picture, slopes, work, first, second);
    }
}

// The slopes of the whole picture, whatever the list held. The buffers of the levels are lent.
pub fn shade(
    whole: &[u64],
    grid: Grid,
    picture: &[u16],
    slopes: &mut [i32],
    work: &mut [u8],
    first: &mut [u64],
    second: &mut [u64],
)
    requires { Lent whole.now grid picture.now slopes.old work.old first.old second.old }
    ensures { Shaded whole.now grid picture.now slopes.new }
{
    clear(slopes);
    let all = Block {
        x: 0,
        xend: grid.width,
        y: 0,
        yend: grid.height,
    };
    sixteens(whole, grid, all, picture, slopes, work, first, second);
}
