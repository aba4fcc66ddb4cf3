// Side 16: the regions of side 16 in a tile.
ghost use Rattle.std.specs.Prelude.{◌≡◌, true, ◌*◌, ◌≤◌, length};
ghost use Rattle.sweep.specs.Chunks.{block_rows};
ghost use Rattle.walk.specs.Children.{children_in};
ghost use Rattle.walk.specs.Walks.{Folds};
ghost use Rattle.solid_blocks.specs.Blocks.{ForSixteens};
ghost use Rattle.solid_blocks.specs.Inside.{OwnRun, ForInside, Inside};
ghost use Rattle.solid_blocks.specs.Sides.{below16};

use crate::fours::fours;
use crate::look::look_lane;
use lane_judge::lane_at;
use picture::grid::Grid;
use range_sweep::ENDS;
use shortening::marks::mark_room;
use solid_lanes::{Batch, batch_with};
use solid_samples::cell::is_hidden;
use sweep::BLOCK;
use walk::cell::Cell;
use walk::children::{child, child_count};
use walk::look::Seen;

// What a region counts by itself: what the look counted, or one run of its words.
fn own_run(seen: Seen, clauses: usize) -> u64
    ensures { OwnRun seen clauses result }
{
    match seen {
        Seen::Done(count) => count,
        Seen::Open(_) => clauses as u64,
    }
}

// The rest of a visit to a region of side 16 behind its look: the regions of side 4 in it, if it is cut.
fn inside(
    whole: &[u64],
    seen: Seen,
    grid: Grid,
    cell: Cell,
    picture: &mut [u16],
    work: &mut [u8],
    second: &[u64],
    third: &mut [u64],
    slots: &mut [[i32; 8]; BLOCK],
    choices: &mut [[u8; 8]],
) -> u64
    requires for_inside { ForInside whole.now seen grid cell
        picture.old work.old second.now third.old choices.old }
    requires slots_len { length slots.old ≡ block_rows }
    ensures inside { Inside seen grid cell second.now picture.old picture.new result }
    ensures slots_stay { length slots.new ≡ block_rows }
{
    match seen {
        Seen::Done(_) => 0,
        Seen::Open(start) => {
            let short = &second[start..];
            fours(
                whole, short, grid, cell, picture, work, third, slots, choices,
            )
        }
    }
}

// At most 4,161 runs a region: its own, which its lane has run, 64 of side 4 and 4,096 samples. The slots of the sweeps
// over samples, and the ends, are made once a tile; choices are those of the regions of side 16, below of those in them.
pub fn sixteens(
    whole: &[u64],
    code: &[u64],
    grid: Grid,
    parent: Cell,
    picture: &mut [u16],
    work: &mut [u8],
    second: &mut [u64],
    third: &mut [u64],
    choices: &mut [[u8; 8]],
    below: &mut [[u8; 8]],
) -> u64
    requires for_sixteens { ForSixteens 64 whole.now code.now grid parent
        picture.old work.old second.old third.old }
    requires whole_in_bounds { length whole.now ≤ length choices.old }
    requires whole_in_below { length whole.now ≤ length below.old }
    ensures { Folds true (64 * 4161) code.now grid below16 (children_in parent 16)
        picture.old picture.new result }
{
    let mut slots = [[0i32; 8]; BLOCK];
    let mut ends = [[0i32; 8]; ENDS];
    let base = whole.len() + mark_room(whole.len());
    let end = child_count(parent, 16);
    let mut batch = Batch {
        numbers: [end; 8],
        result: 0,
        lane: 0,
    };
    let mut count: u64 = 0;
    for m in 0..end {
        let cell = child(parent, 16, m);
        if is_hidden(grid, cell, picture) {
            continue;
        }
        batch = batch_with(
            code, grid, parent, 16, m, end, batch, picture, &mut ends, choices,
        );
        let lane = lane_at(&ends, batch.result, batch.lane);
        let seen = look_lane(
            whole, code, grid, cell, lane, choices, picture, work, base, second,
        );
        let own = own_run(seen, code.len());
        count += own
            + inside(
                whole, seen, grid, cell, picture, work, second, third, &mut slots, below,
            );
    }
    count
}
