// Side 4: blocks of side 4 in one of side 16, in the same window of layers, each with its own short tape.
ghost use Rattle.slope_pixels.specs.Shades.{Shading};
ghost use Rattle.slope_blocks.specs.Blocks.{ForFours};

use crate::narrow::narrow;
use crate::parts::{part_count, part_of};
use picture::grid::Grid;
use shortening::marks::mark_room;
use slope_pixels::block::{Block, Layers, seen_in};
use slope_pixels::pixels::shade_rows;

fn visit_four(
    whole: &[u64],
    code: &[u64],
    grid: Grid,
    block: Block,
    window: Layers,
    picture: &[u16],
    slopes: &mut [i32],
    work: &mut [u8],
    second: &mut [u64],
)
    requires { ForFours 4 whole.now code.now grid block window picture.now slopes.old
        work.old second.old }
    ensures { Shading code.now grid picture.now window block block
        slopes.old slopes.new }
{
    let tight = seen_in(picture, grid, block, window);
    if tight.end <= tight.from {
        return;
    }
    let base = whole.len() + mark_room(whole.len());
    let start = narrow(whole, code, grid, block, tight, work, base, second);
    let short = &second[start..];
    shade_rows(short, grid, picture, slopes, block, tight);
}

pub fn fours(
    whole: &[u64],
    code: &[u64],
    grid: Grid,
    block: Block,
    window: Layers,
    picture: &[u16],
    slopes: &mut [i32],
    work: &mut [u8],
    second: &mut [u64],
)
    requires { ForFours 16 whole.now code.now grid block window picture.now slopes.old
        work.old second.old }
    ensures { Shading code.now grid picture.now window block block
        slopes.old slopes.new }
{
    for m in 0..part_count(block, 16, 4) {
        let four = part_of(block, 16, 4, m);
        visit_four(
            whole, code, grid, four, window, picture, slopes, work, second,
        );
    }
}
