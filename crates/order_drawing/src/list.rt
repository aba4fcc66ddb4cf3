// Line 12 of an order list: each number below the number of tiles exactly once, and nothing else.
ghost use Rattle.std.specs.Prelude.{true, not, ◌≡◌, ◌≤◌};
ghost use Rattle.rules.specs.Values.{when};
ghost use Rattle.rules.specs.Drawings.{grid_fault};
ghost use Rattle.faults.specs.Numbers.{fault_of};
ghost use Rattle.order_rules.specs.Orders.{is_order};
ghost use Rattle.picture.specs.Shapes.{grid_in};
ghost use Rattle.order_drawing.specs.InOrder.{TileCount};

use faults::Fault;
use picture::grid::Grid;
use walk::cell::cell_at;
use walk::children::child_count;

// Eight along each axis.
const TILE_LIMIT: usize = 512;

pub fn tile_count(grid: Grid) -> u32
    requires { grid_fault true (grid_in grid true) ≡ 0 }
    ensures { TileCount grid result }
{
    child_count(cell_at(grid, grid.depth, 0, 0, 0, 512), 64)
}

// A flag for each number: 1 once it is seen.
pub fn check_list(count: u32, order: &[u16]) -> Result<(), Fault>
    requires { count ≤ 512 }
    ensures { fault_of result ≡ when (not (is_order count order.now)) 12 }
{
    let end = count as usize;
    if order.len() != end {
        return Err(Fault::PictureLength);
    }
    let mut seen = [0u8; TILE_LIMIT];
    for number in order {
        let m = *number as usize;
        if end <= m {
            return Err(Fault::PictureLength);
        }
        if seen[m] != 0 {
            return Err(Fault::PictureLength);
        }
        seen[m] = 1;
    }
    Ok(())
}
