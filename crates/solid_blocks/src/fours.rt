// Side 4: the regions of side 4 in one of side 16.
ghost use Rattle.std.specs.Prelude.{◌≡◌, true, ◌*◌, ◌≤◌, length};
ghost use Rattle.sweep.specs.Chunks.{block_rows};
ghost use Rattle.walk.specs.Children.{children_in};
ghost use Rattle.walk.specs.Cells.{region_in};
ghost use Rattle.walk.specs.Walks.{Visits, Folds};
ghost use Rattle.solid_blocks.specs.Blocks.{ForFours, ForFour};
ghost use Rattle.solid_blocks.specs.Sides.{below4};

use crate::look::look_lane;
use lane_judge::{Lane, lane_at};
use picture::grid::Grid;
use range_sweep::ENDS;
use shortening::marks::mark_room;
use solid_lanes::{Batch, batch_with};
use solid_samples::cell::is_hidden;
use solid_samples::samples::sample_layers;
use sweep::BLOCK;
use walk::cell::Cell;
use walk::children::{child, child_count};
use walk::look::Seen;

// At most 65 runs: the region, which its lane has run, and 64 samples.
fn visit_four(
    whole: &[u64],
    code: &[u64],
    grid: Grid,
    cell: Cell,
    lane: Lane,
    choices: &[[u8; 8]],
    picture: &mut [u16],
    work: &mut [u8],
    third: &mut [u64],
    slots: &mut [[i32; 8]; BLOCK],
) -> u64
    requires for_four { ForFour whole.now code.now grid cell lane choices.now
        picture.old work.old third.old }
    requires slots_len { length slots.old ≡ block_rows }
    ensures visits { Visits true 65 code.now grid below4 (region_in cell)
        picture.old picture.new result }
    ensures slots_stay { length slots.new ≡ block_rows }
{
    let room = mark_room(whole.len());
    let base = whole.len() + 2 * room;
    let seen = look_lane(
        whole, code, grid, cell, lane, choices, picture, work, base, third,
    );
    match seen {
        Seen::Done(count) => count,
        Seen::Open(start) => {
            let short = &third[start..];
            let inside = sample_layers(short, grid, cell, slots, picture);
            code.len() as u64 + inside
        }
    }
}

// The regions that are not hidden, eight in a run; the choices are lent, and the ends of their ranges are made here.
pub fn fours(
    whole: &[u64],
    code: &[u64],
    grid: Grid,
    parent: Cell,
    picture: &mut [u16],
    work: &mut [u8],
    third: &mut [u64],
    slots: &mut [[i32; 8]; BLOCK],
    choices: &mut [[u8; 8]],
) -> u64
    requires for_fours { ForFours 16 whole.now code.now grid parent picture.old work.old third.old }
    requires slots_len { length slots.old ≡ block_rows }
    requires whole_in_bounds { length whole.now ≤ length choices.old }
    ensures folds { Folds true (64 * 65) code.now grid below4 (children_in parent 4)
        picture.old picture.new result }
    ensures slots_stay { length slots.new ≡ block_rows }
{
    let mut ends = [[0i32; 8]; ENDS];
    let mut count: u64 = 0;
    let end = child_count(parent, 4);
    let mut batch = Batch {
        numbers: [end; 8],
        result: 0,
        lane: 0,
    };
    for m in 0..end {
        let cell = child(parent, 4, m);
        if is_hidden(grid, cell, picture) {
            continue;
        }
        batch = batch_with(
            code, grid, parent, 4, m, end, batch, picture, &mut ends, choices,
        );
        let lane = lane_at(&ends, batch.result, batch.lane);
        count += visit_four(
            whole, code, grid, cell, lane, choices, picture, work, third, slots,
        );
    }
    count
}
