// Side 8: the regions of side 8 in a tile.
ghost use Rattle.std.specs.Prelude.{◌≡◌, false, ◌+◌, ◌*◌, length};
ghost use Rattle.sweep.specs.Chunks.{block_rows};
ghost use Rattle.range_sweep.specs.Boxes.{LentEnds};
ghost use Rattle.walk.specs.Children.{children_in};
ghost use Rattle.picture.specs.Parts.{Apart};
ghost use Rattle.walk.specs.Cells.{region_in};
ghost use Rattle.walk.specs.Walks.{Visits, Folds};
ghost use Rattle.flat_eights.specs.Eights.{ForEight, ForEights};
ghost use Rattle.flat_eights.specs.Sides.{below8};

use crate::look::look_lane;
use child_lanes::run_children;
use flat_samples::samples::sample_rows;
use lane_judge::{Lane, lane_at};
use picture::grid::Grid;
use range_sweep::ENDS;
use shortening::marks::mark_room;
use sweep::BLOCK;
use walk::cell::Cell;
use walk::children::{child, child_count};
use walk::look::Seen;

// At most 65 runs: the region, which its lane has run, and 64 samples.
fn visit_eight(
    whole: &[u64],
    code: &[u64],
    grid: Grid,
    cell: Cell,
    lane: Lane,
    choices: &[[u8; 8]],
    picture: &mut [u8],
    work: &mut [u8],
    second: &mut [u64],
    slots: &mut [[i32; 8]; BLOCK],
) -> u64
    requires { ForEight whole.now code.now grid cell lane choices.now
        picture.old work.old second.old slots.old }
    ensures visits { Visits false 65 code.now grid below8 (region_in cell)
        picture.old picture.new result }
    ensures slots_len { length slots.new ≡ block_rows }
    ensures apart { Apart grid.width cell.x (cell.x + 8) cell.y (cell.y + 8)
        picture.old picture.new }
{
    let base = whole.len() + mark_room(whole.len());
    let seen = look_lane(
        whole, code, grid, cell, lane, choices, picture, work, base, second,
    );
    match seen {
        Seen::Done(count) => count,
        Seen::Open(start) => {
            let short = &second[start..];
            let inside = sample_rows(short, grid, cell, slots, picture);
            code.len() as u64 + inside
        }
    }
}

// The regions eight by eight: each eight are run together before the first of them is visited.
fn eights_by(
    whole: &[u64],
    code: &[u64],
    grid: Grid,
    parent: Cell,
    picture: &mut [u8],
    work: &mut [u8],
    second: &mut [u64],
    slots: &mut [[i32; 8]; BLOCK],
    ends: &mut [[i32; 8]; ENDS],
    choices: &mut [[u8; 8]],
) -> u64
    requires for_eights { ForEights 64 whole.now code.now grid parent
        picture.old work.old second.old slots.old choices.old }
    requires lent_ends { LentEnds ends.old }
    ensures folds { Folds false (64 * 65) code.now grid below8 (children_in parent 8)
        picture.old picture.new result }
    ensures slots_len { length slots.new ≡ block_rows }
    ensures apart { Apart grid.width parent.x (parent.x + 64) parent.y (parent.y + 64)
        picture.old picture.new }
{
    let mut count: u64 = 0;
    let end = child_count(parent, 8);
    let mut result = 0;
    for m in 0..end {
        result = run_children(code, grid, parent, 8, m, end, result, ends, choices);
        let cell = child(parent, 8, m);
        let lane = lane_at(ends, result, (m % 8) as usize);
        count += visit_eight(
            whole, code, grid, cell, lane, choices, picture, work, second, slots,
        );
    }
    count
}

// Choices are lent. Ends are made here, 8 KiB a tile: with them too a caller would have eleven parameters.
pub fn eights(
    whole: &[u64],
    code: &[u64],
    grid: Grid,
    parent: Cell,
    picture: &mut [u8],
    work: &mut [u8],
    second: &mut [u64],
    slots: &mut [[i32; 8]; BLOCK],
    choices: &mut [[u8; 8]],
) -> u64
    requires { ForEights 64 whole.now code.now grid parent
        picture.old work.old second.old slots.old choices.old }
    ensures folds { Folds false (64 * 65) code.now grid below8 (children_in parent 8)
        picture.old picture.new result }
    ensures slots_len { length slots.new ≡ block_rows }
    ensures apart { Apart grid.width parent.x (parent.x + 64) parent.y (parent.y + 64)
        picture.old picture.new }
{
    let mut ends = [[0i32; 8]; ENDS];
    eights_by(
        whole, code, grid, parent, picture, work, second, slots, &mut ends, choices,
    )
}
