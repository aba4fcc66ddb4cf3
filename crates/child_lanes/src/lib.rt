// Children of a region by their numbers, eight run together: the box of each, one a lane, and in a flat region the run that
// a child belongs to.
#![tactic(auto)]

ghost use Rattle.fixed.specs.Shapes.{box_in};
ghost use Rattle.child_lanes.specs.ChildLanes.{ForChildBox, ChildBox, ForBoxes, ChildBoxes};
ghost use Rattle.child_lanes.specs.ChildLanes.{ForRunBy, RanBy, ForFollowing, Following, ForRun, Ran};

use fixed::clause::Bounds;
use picture::grid::Grid;
use range_sweep::{ENDS, run_boxes};
use walk::cell::{Cell, flat_bounds, lesser, solid_bounds};
use walk::children::child;

// The box of child number n of a solid's region or of a flat one. `solid` is the flag of `ChildBox`, `ChildBoxes` and
// `RanBy`, which speak of both kinds at once, as the rules' definitions do.
fn child_box(solid: bool, grid: Grid, parent: Cell, side: u32, n: u32) -> Bounds
    requires { ForChildBox solid grid parent side n }
    ensures { ChildBox solid grid parent side n (box_in result) }
{
    let c = child(parent, side, n);
    if solid {
        solid_bounds(grid, c)
    } else {
        flat_bounds(grid, c)
    }
}

// The boxes of the children of eight numbers: two rows an axis.
pub fn child_boxes(
    solid: bool,
    grid: Grid,
    parent: Cell,
    side: u32,
    numbers: [u32; 8],
) -> [[i32; 8]; 6]
    requires { ForBoxes solid grid parent side numbers }
    ensures { ChildBoxes solid grid parent side numbers result }
{
    let mut xl = [0i32; 8];
    let mut xh = [0i32; 8];
    let mut yl = [0i32; 8];
    let mut yh = [0i32; 8];
    let mut zl = [0i32; 8];
    let mut zh = [0i32; 8];
    for k in 0..8 {
        let b = child_box(solid, grid, parent, side, numbers[k]);
        xl[k] = b.xs.low;
        xh[k] = b.xs.high;
        yl[k] = b.ys.low;
        yh[k] = b.ys.high;
        zl[k] = b.zs.low;
        zh[k] = b.zs.high;
    }
    [xl, xh, yl, yh, zl, zh]
}

// The children of eight numbers are run together: what is told is the slot of their result.
pub fn run_numbered(
    code: &[u64],
    solid: bool,
    grid: Grid,
    parent: Cell,
    side: u32,
    numbers: [u32; 8],
    ends: &mut [[i32; 8]; ENDS],
    choices: &mut [[u8; 8]],
) -> usize
    requires { ForRunBy solid code.now grid parent side numbers ends.old choices.old }
    ensures { RanBy solid code.now grid parent side numbers
        ends.new choices.new result }
{
    let bounds = child_boxes(solid, grid, parent, side, numbers);
    run_boxes(code, &bounds, ends, choices)
}

// Eight numbers from m on: past the last child that one's again, so that every lane runs on a box.
fn following(m: u32, end: u32) -> [u32; 8]
    requires { ForFollowing m end }
    ensures { Following m end result }
{
    let mut r = [0u32; 8];
    for k in 0..8 {
        r[k] = lesser(m + k as u32, end - 1);
    }
    r
}

// Before each child of a flat region in turn: the eight from a multiple of eight on are run when the first of them comes,
// and `last` is the slot of their result for the others.
pub fn run_children(
    code: &[u64],
    grid: Grid,
    parent: Cell,
    side: u32,
    m: u32,
    end: u32,
    last: usize,
    ends: &mut [[i32; 8]; ENDS],
    choices: &mut [[u8; 8]],
) -> usize
    requires { ForRun code.now grid parent side m end last ends.old choices.old }
    ensures { Ran code.now grid parent side m ends.new choices.new result }
{
    if m % 8 == 0 {
        let numbers = following(m, end);
        return run_numbered(code, false, grid, parent, side, numbers, ends, choices);
    }
    last
}
