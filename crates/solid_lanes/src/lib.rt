// The children of a solid's region that are not hidden, run eight at a time. Those before may hide one: so the eight are
// listed by the picture as it is when the first of them comes, and not for the whole region at once.
#![tactic(auto)]

ghost use Rattle.std.specs.Prelude.{IfSome};
ghost use Rattle.solid_lanes.specs.SolidLanes.{ForList, ListedFrom, Found, ForBatch, InBatch};

use child_lanes::run_numbered;
use picture::grid::Grid;
use range_sweep::ENDS;
use solid_samples::cell::is_hidden;
use walk::cell::Cell;
use walk::children::child;

// Children by their numbers, one a lane, that were run together; the slot of their result, and the lane of the child whose
// turn it is.
#[derive(Clone, Copy)]
pub struct Batch {
    pub numbers: [u32; 8],
    pub result: usize,
    pub lane: usize,
}

// Child m and the next ones that are not hidden now, up to eight. A listed child that is hidden by the time of its turn is
// just not visited: its lane was free. One that is left out stays hidden, as heights only rise, and needs no run later.
// Where there are fewer than eight the last lanes have m again, so that every lane runs on a child.
fn seen_from(grid: Grid, parent: Cell, side: u32, m: u32, end: u32, picture: &[u16]) -> [u32; 8]
    requires { ForList grid parent side m end picture.now }
    ensures { ListedFrom m end result }
{
    let mut r = [m; 8];
    let mut n = 1;
    for i in m + 1..end {
        if n == 8 {
            break;
        }
        if !is_hidden(grid, child(parent, side, i), picture) {
            r[n] = i;
            n += 1;
        }
    }
    r
}

// The lane of number m, if it is in one.
fn find_lane(numbers: &[u32; 8], m: u32) -> Option<usize>
    ensures { IfSome result (Found numbers.now m) }
{
    numbers.iter().position(|n| *n == m)
}

// Before each child that is seen, in turn: the batch before if child m is in it, or a new one from m on. A batch that was
// not run yet has `end`, which is no child's number, in every lane.
pub fn batch_with(
    code: &[u64],
    grid: Grid,
    parent: Cell,
    side: u32,
    m: u32,
    end: u32,
    batch: Batch,
    picture: &[u16],
    ends: &mut [[i32; 8]; ENDS],
    choices: &mut [[u8; 8]],
) -> Batch
    requires { ForBatch code.now grid parent side m end batch picture.now ends.old choices.old }
    ensures { InBatch code.now grid parent side m ends.new choices.new result }
{
    if let Some(lane) = find_lane(&batch.numbers, m) {
        return Batch { lane, ..batch };
    }
    let numbers = seen_from(grid, parent, side, m, end, picture);
    let result = run_numbered(code, true, grid, parent, side, numbers, ends, choices);
    Batch {
        numbers,
        result,
        lane: 0,
    }
}
