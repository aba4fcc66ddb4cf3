// What the samples of a chunk come to: two rows by four pixels of one layer of a region of side 4, run in eight lanes.
// Lane k has column k % 4 of row k / 4, so that the lanes' order is the walk's.
ghost use Rattle.std.specs.Prelude.{true, []};
ghost use Rattle.rules.specs.Drawings.{region, along_z};
ghost use Rattle.walk.specs.Walks.{Visits, Folds};
ghost use Rattle.solid_samples.specs.Samples.{ForLane, ForRow, ForChunk, ForPlace, ForPlaces};
ghost use Rattle.solid_samples.specs.Chunks.{row_in, chunk_in};

use crate::chunks::{chunk_y, chunk_z};
use crate::whole::{raised, settle_whole};
use picture::grid::Grid;
use sweep::BLOCK;
use walk::cell::Cell;

// One sample with the tape's value there. Its height is read now: a sample of a layer above may have raised it since the
// lanes ran. Then the sample is hidden, and not counted. The height is stored in every case, also one that stays, so that
// no branch hangs on the value.
fn settle_lane(
    code: &[u64],
    grid: Grid,
    x: u32,
    y: u32,
    z: u32,
    value: i32,
    picture: &mut [u16],
) -> u64
    requires { ForLane code.now grid x y z value picture.old }
    ensures { Visits true 1 code.now grid [] (region x y z 1)
        picture.old picture.new result }
{
    let at = (y * grid.width + x) as usize;
    let height = (z + 1) as u16;
    let now = picture[at];
    picture[at] = raised(now, height, value);
    if now < height { code.len() as u64 } else { 0 }
}

// Row y of layer z, whose first sample is in the lane `first`. Lanes past the region's end are not looked at.
fn settle_row(
    code: &[u64],
    grid: Grid,
    parent: Cell,
    y: u32,
    z: u32,
    values: &[i32; 8],
    first: u32,
    picture: &mut [u16],
) -> u64
    requires { ForRow code.now grid parent y z values.now first picture.old }
    ensures { Folds true 4 code.now grid [] (row_in parent y z)
        picture.old picture.new result }
{
    if parent.yend <= y {
        return 0;
    }
    let mut count: u64 = 0;
    for x in parent.x..parent.xend {
        let value = values[(first + (x - parent.x)) as usize];
        count += settle_lane(code, grid, x, y, z, value, picture);
    }
    count
}

// A chunk that no edge of the grid cuts is settled in lanes.
fn settle_chunk(
    code: &[u64],
    grid: Grid,
    parent: Cell,
    y: u32,
    z: u32,
    values: &[i32; 8],
    picture: &mut [u16],
) -> u64
    requires { ForChunk code.now grid parent y z values.now picture.old }
    ensures { Folds true 8 code.now grid [] (chunk_in parent y z)
        picture.old picture.new result }
{
    if parent.xend - parent.x == 4 && y + 2 <= parent.yend {
        return settle_whole(code, grid, parent, y, z, values, picture);
    }
    let lower = settle_row(code, grid, parent, y, z, values, 0, picture);
    let upper = settle_row(code, grid, parent, y + 1, z, values, 4, picture);
    lower + upper
}

// A chunk by its place among those that were run. One that was hidden before they ran is hidden still: heights only rise.
fn settle_place(
    code: &[u64],
    grid: Grid,
    parent: Cell,
    y: u32,
    z: u32,
    place: usize,
    res: usize,
    slots: &[[i32; 8]; BLOCK],
    picture: &mut [u16],
) -> u64
    requires { ForPlace code.now grid parent y z place res slots.now picture.old }
    ensures { Folds true 8 code.now grid [] (chunk_in parent y z)
        picture.old picture.new result }
{
    if 8 <= place {
        return 0;
    }
    settle_chunk(code, grid, parent, y, z, &slots[8 * res + place], picture)
}

// All chunks in the walk's order.
pub fn settle_chunks(
    code: &[u64],
    grid: Grid,
    parent: Cell,
    places: [usize; 8],
    res: usize,
    slots: &[[i32; 8]; BLOCK],
    picture: &mut [u16],
) -> u64
    requires { ForPlaces code.now grid parent places res slots.now picture.old }
    ensures { Folds true 64 code.now grid []
        (along_z 4 4 parent.x parent.y parent.z 1 parent.xend parent.yend parent.zend)
        picture.old picture.new result }
{
    let end = 2 * (parent.zend - parent.z);
    let mut count: u64 = 0;
    for m in 0..end {
        let y = chunk_y(parent, m);
        let z = chunk_z(parent, m);
        let place = places[m as usize];
        count += settle_place(code, grid, parent, y, z, place, res, slots, picture);
    }
    count
}
