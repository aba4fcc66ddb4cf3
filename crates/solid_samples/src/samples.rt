// Side 1: the samples of a region of side 4, run on values with that region's short tape. All its chunks that are not
// wholly hidden run in one sweep, before any of them is drawn: a sample's value does not depend on heights. A sample that
// a layer above has hidden by its turn was run in vain and is not counted, so heights and count are the walk's.
ghost use Rattle.std.specs.Prelude.{true, [], ◌≡◌, length};
ghost use Rattle.rules.specs.Drawings.{along_z};
ghost use Rattle.walk.specs.Walks.{Folds};
ghost use Rattle.solid_samples.specs.Samples.{ForSamples};
ghost use Rattle.sweep.specs.Chunks.{block_rows};

use crate::chunks::{columns, list_chunks};
use crate::settle::settle_chunks;
use axis_lanes::lane_samples;
use picture::grid::Grid;
use sweep::{BLOCK, run_chunks};
use walk::cell::Cell;

pub fn sample_layers(
    code: &[u64],
    grid: Grid,
    parent: Cell,
    slots: &mut [[i32; 8]; BLOCK],
    picture: &mut [u16],
) -> u64
    requires for_samples { ForSamples code.now grid parent picture.old }
    requires slots_len { length slots.old ≡ block_rows }
    ensures folds { Folds true 64 code.now grid []
        (along_z 4 4 parent.x parent.y parent.z 1 parent.xend parent.yend parent.zend)
        picture.old picture.new result }
    ensures slots_stay { length slots.new ≡ block_rows }
{
    let xs = columns(lane_samples(grid.xorigin, grid.xstep, parent.x, parent.xend));
    let rows = lane_samples(grid.yorigin, grid.ystep, parent.y, parent.yend);
    let layers = lane_samples(grid.zorigin, grid.zstep, parent.z, parent.zend);
    let mut ys = [[0i32; 8]; 8];
    let mut zs = [[0i32; 8]; 8];
    let mut places = [8usize; 8];
    let n = list_chunks(
        grid,
        parent,
        &rows,
        &layers,
        picture,
        &mut ys,
        &mut zs,
        &mut places,
    );
    let result = run_chunks(code, xs, &ys, &zs, n, slots);
    settle_chunks(code, grid, parent, places, result, slots, picture)
}
