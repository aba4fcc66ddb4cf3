// What the sides 64 and 8 share: a region is judged, and filled where it is full.
ghost use Rattle.std.specs.Prelude.{false, ◌+◌};
ghost use Rattle.picture.specs.Parts.{Apart};
ghost use Rattle.picture.specs.Shapes.{grid_in};
ghost use Rattle.walk.specs.Cells.{region_in};
ghost use Rattle.walk.specs.Draws.{Fills};
ghost use Rattle.walk.specs.Walks.{Shown, Looked};
ghost use Rattle.flat_eights.specs.Eights.{ForFill, Settled, ForFlatLook, ForLaneLook};

use lane_judge::{Lane, judge_lane};
use picture::bits::fill_rect;
use picture::grid::Grid;
use walk::cell::{Cell, flat_bounds};
use walk::judge::{Outcome, judge};
use walk::look::Seen;

pub fn fill(grid: Grid, c: Cell, picture: &mut [u8])
    requires { ForFill grid c picture.old }
    ensures fills { Fills (Shown false grid) (grid_in grid false) (region_in c)
        picture.old picture.new }
    ensures apart { Apart grid.width c.x c.xend c.y c.yend picture.old
        picture.new }
{
    fill_rect(
        picture,
        grid.width as usize,
        c.x as usize,
        c.y as usize,
        c.xend as usize,
        c.yend as usize,
    );
}

// What the judge says is done: a full region is filled.
// Flat and solid settle alike but for the picture and how a full region is filled: a function for both would take these.
fn settle(code: &[u64], grid: Grid, c: Cell, outcome: Outcome, picture: &mut [u8]) -> Seen
    requires { ForFill grid c picture.old }
    ensures settled { Settled code.now grid c outcome picture.old picture.new result }
    ensures apart { Apart grid.width c.x (c.x + c.side) c.y (c.y + c.side) picture.old
        picture.new }
{
    match outcome {
        Outcome::Full => {
            fill(grid, c, picture);
            Seen::Done(code.len() as u64)
        }
        Outcome::Empty => Seen::Done(code.len() as u64),
        Outcome::Cut(start) => Seen::Open(start),
    }
}

pub fn look(
    whole: &[u64],
    code: &[u64],
    grid: Grid,
    c: Cell,
    picture: &mut [u8],
    work: &mut [u8],
    base: usize,
    next: &mut [u64],
) -> Seen
    requires { ForFlatLook whole.now code.now grid c picture.old work.old base next.old }
    ensures looked { Looked false whole.now code.now grid (region_in c)
        picture.old picture.new base work.new next.new result }
    ensures apart { Apart grid.width c.x (c.x + c.side) c.y (c.y + c.side) picture.old
        picture.new }
{
    let judged = judge(whole, code, flat_bounds(grid, c), work, base, next);
    settle(code, grid, c, judged.outcome, picture)
}

// The same look by a lane of a sweep that ran the region with others.
// It differs from `look` in who judges: to take the judge as a closure would cost the lines that it saves.
#[inline(always)]
pub fn look_lane(
    whole: &[u64],
    code: &[u64],
    grid: Grid,
    c: Cell,
    lane: Lane,
    choices: &[[u8; 8]],
    picture: &mut [u8],
    work: &mut [u8],
    base: usize,
    next: &mut [u64],
) -> Seen
    requires { ForLaneLook whole.now code.now grid c lane choices.now picture.old work.old base next.old }
    ensures looked { Looked false whole.now code.now grid (region_in c)
        picture.old picture.new base work.new next.new result }
    ensures apart { Apart grid.width c.x (c.x + c.side) c.y (c.y + c.side) picture.old
        picture.new }
{
    let judged = judge_lane(whole, code, lane, choices, work, base, next);
    settle(code, grid, c, judged.outcome, picture)
}
