// Side 64: the tiles of the picture. A tile begins with all positions, whose numbers stand for a while in the list that its
// regions of side 8 write theirs to.
ghost use Rattle.walk.specs.Cells.{region_in};
ghost use Rattle.swept_pixels.specs.Puts.{Draws};
ghost use Rattle.swept_tiles.specs.Looks.{ForNumbers, Numbered, AllAgree, ForTile, ForSweep, SweptBy};

use crate::eights::eights;
use crate::look::{Glance, look};
use picture::grid::Grid;
use swept_pixels::put::fill;
use walk::cell::{Cell, cell_at};
use walk::children::{child, child_count};

// The numbers below n, in order.
fn number(list: &mut [u16], n: usize)
    requires { ForNumbers n list.old }
    ensures { Numbered n list.new }
{
    for k in 0..n {
        list[k] = k as u16;
    }
}

fn visit_tile(
    whole: &[u64],
    grid: Grid,
    cell: Cell,
    path: &[i32],
    outer: &mut [u16],
    inner: &mut [u16],
    picture: &mut [u16],
    work: &mut [u8],
    first: &mut [u64],
    second: &mut [u64],
)
    requires { ForTile 64 whole.now grid cell path.now outer.old inner.old picture.old work.old
        first.old second.old }
    ensures { Draws (AllAgree whole.now path.now grid (region_in cell))
        grid (region_in cell) picture.old picture.new }
{
    let n = path.len() / 2;
    number(inner, n);
    let all = &inner[..n];
    let base = whole.len();
    let seen = look(
        whole, whole, grid, cell, path, all, outer, work, base, first,
    );
    match seen {
        Glance::Same(v) => {
            fill(picture, grid, cell, v);
        }
        Glance::Open(count, start) => {
            let list = &outer[..count];
            let short = &first[start..];
            eights(
                whole, short, grid, cell, path, list, inner, picture, work, second,
            );
        }
    }
}

// The whole picture. The lists of positions and the buffers of the levels are lent.
pub fn sweep(
    whole: &[u64],
    grid: Grid,
    path: &[i32],
    outer: &mut [u16],
    inner: &mut [u16],
    picture: &mut [u16],
    work: &mut [u8],
    first: &mut [u64],
    second: &mut [u64],
)
    requires { ForSweep whole.now grid path.now outer.old inner.old picture.old work.old
        first.old second.old }
    ensures { SweptBy whole.now path.now grid picture.new }
{
    let parent = cell_at(grid, 1, 0, 0, 0, 512);
    for m in 0..child_count(parent, 64) {
        let cell = child(parent, 64, m);
        visit_tile(
            whole, grid, cell, path, outer, inner, picture, work, first, second,
        );
    }
}
