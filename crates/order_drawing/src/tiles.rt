// The walk over the tiles in the order of a list.
ghost use Rattle.order_drawing.specs.InOrder.{ForOrder, WalkedInOrder};

use picture::grid::Grid;
use picture::heights::clear;
use solid_tiles::tiles::visit_tile;
use tape::CLAUSE_LIMIT;
use walk::cell::cell_at;
use walk::children::child;

// The whole drawing, whatever the picture held. Choices are made here, as for the drawing in its own order: with them too
// a caller would have eleven parameters.
pub fn tile_in_order(
    whole: &[u64],
    grid: Grid,
    order: &[u16],
    picture: &mut [u16],
    work: &mut [u8],
    first: &mut [u64],
    second: &mut [u64],
    third: &mut [u64],
) -> u64
    requires { ForOrder order.now whole.now grid
        picture.old work.old first.old second.old third.old }
    ensures { WalkedInOrder order.now whole.now grid picture.new result }
{
    clear(picture);
    let all = cell_at(grid, grid.depth, 0, 0, 0, 512);
    let mut choices = [[0u8; 8]; CLAUSE_LIMIT];
    let mut below = [[0u8; 8]; CLAUSE_LIMIT];
    let mut count: u64 = 0;
    for number in order {
        let cell = child(all, 64, *number as u32);
        count += visit_tile(
            whole,
            grid,
            cell,
            picture,
            work,
            first,
            second,
            third,
            &mut choices,
            &mut below,
        );
    }
    count
}
