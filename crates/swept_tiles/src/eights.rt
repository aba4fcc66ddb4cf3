// Side 8: the regions of side 8 in a tile, with the tile's positions and words.
ghost use Rattle.walk.specs.Cells.{region_in};
ghost use Rattle.swept_pixels.specs.Puts.{Draws};
ghost use Rattle.swept_pixels.specs.Searches.{Agrees};
ghost use Rattle.swept_tiles.specs.Looks.{ForEights};

use crate::look::{Glance, look};
use picture::grid::Grid;
use shortening::marks::mark_room;
use swept_pixels::pixels::sweep_pixels;
use swept_pixels::put::fill;
use walk::cell::Cell;
use walk::children::{child, child_count};

fn visit_eight(
    whole: &[u64],
    code: &[u64],
    grid: Grid,
    cell: Cell,
    path: &[i32],
    from: &[u16],
    kept: &mut [u16],
    picture: &mut [u16],
    work: &mut [u8],
    second: &mut [u64],
)
    requires { ForEights 8 whole.now code.now grid cell path.now from.now kept.old picture.old
        work.old second.old }
    ensures { Draws (Agrees code.now path.now grid from.now (region_in cell))
        grid (region_in cell) picture.old picture.new }
{
    let base = whole.len() + mark_room(whole.len());
    let seen = look(
        whole, code, grid, cell, path, from, kept, work, base, second,
    );
    match seen {
        Glance::Same(v) => {
            fill(picture, grid, cell, v);
        }
        Glance::Open(count, start) => {
            let list = &kept[..count];
            let short = &second[start..];
            sweep_pixels(short, grid, cell, path, list, picture);
        }
    }
}

pub fn eights(
    whole: &[u64],
    code: &[u64],
    grid: Grid,
    tile: Cell,
    path: &[i32],
    from: &[u16],
    kept: &mut [u16],
    picture: &mut [u16],
    work: &mut [u8],
    second: &mut [u64],
)
    requires { ForEights 64 whole.now code.now grid tile path.now from.now kept.old picture.old
        work.old second.old }
    ensures { Draws (Agrees code.now path.now grid from.now (region_in tile))
        grid (region_in tile) picture.old picture.new }
{
    for m in 0..child_count(tile, 8) {
        let cell = child(tile, 8, m);
        visit_eight(
            whole, code, grid, cell, path, from, kept, picture, work, second,
        );
    }
}
