// What the sides 64 and 8 share: the positions kept, and the tape cut over the hull of their boxes.
ghost use Rattle.walk.specs.Cells.{region_in};
ghost use Rattle.swept_tiles.specs.Looks.{ForLook, LookedAs};

use picture::grid::Grid;
use swept_path::keep::{Cover, keep};
use swept_path::moved::{hull_over, moved_bounds};
use walk::cell::{Cell, flat_bounds};
use walk::judge::cut_over;

// Every pixel has this number; or so many positions are kept, and the short tape's words start there.
#[derive(Clone, Copy)]
pub enum Glance {
    Same(u16),
    Open(usize, usize),
}

pub fn look(
    whole: &[u64],
    code: &[u64],
    grid: Grid,
    cell: Cell,
    path: &[i32],
    from: &[u16],
    kept: &mut [u16],
    work: &mut [u8],
    base: usize,
    next: &mut [u64],
) -> Glance
    requires { ForLook whole.now code.now grid cell path.now from.now kept.old work.old base next.old }
    ensures { LookedAs whole.now code.now grid (region_in cell) path.now
        from.now kept.new next.new result }
{
    let bounds = flat_bounds(grid, cell);
    match keep(code, bounds, path, from, kept, work) {
        Cover::Nowhere => Glance::Same(0),
        Cover::Everywhere(k) => Glance::Same(k + 1),
        Cover::Partly(count) => {
            let list = &kept[..count];
            let over = moved_bounds(bounds, hull_over(path, list));
            let start = cut_over(whole, code, over, work, base, next);
            Glance::Open(count, start)
        }
    }
}
