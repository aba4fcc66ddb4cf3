// Where the walk stops on its way to a pixel: at side 64, 8 or 1, in the region that holds the pixel. Nothing is drawn.
ghost use Rattle.std.specs.Prelude.{◌≡◌, false, [], ◌∷◌, ◌≤◌, length};
ghost use Rattle.rules.specs.Tapes.{clause_limit};
ghost use Rattle.rules.specs.Drawings.{size_limit, sample_at};
ghost use Rattle.fixed.specs.Shapes.{range_in, sample_in};
ghost use Rattle.picture.specs.Shapes.{grid_in};
ghost use Rattle.walk.specs.Walks.{Sound};
ghost use Rattle.reason.specs.Stops.{stop_in, stop_of, Pixel, ForLevel, JudgedAt, StopsAs};

use code::run::run_values;
use fixed::clause::Sample;
use fixed::span::Span;
use picture::grid::{Grid, sample};
use tape::SLOT_LIMIT;
use walk::cell::{cell_at, flat_bounds};
use walk::judge::{Judgement, Outcome, judge};

// The side of the region, as it is before the grid's edge cuts it off; both ends of the range there or the value twice;
// and the number of clauses that were run.
#[derive(Clone, Copy)]
pub struct Stop {
    pub side: u32,
    pub low: i32,
    pub high: i32,
    pub clauses: u32,
}

fn stop_at(side: u32, range: Span, clauses: usize) -> Stop
    requires { clauses ≤ clause_limit }
    ensures { stop_in result ≡ stop_of side (range_in range) clauses }
{
    Stop {
        side: side,
        low: range.low,
        high: range.high,
        clauses: clauses as u32,
    }
}

// The pixel's sample: the one z of a flat grid is as given.
fn pixel_sample(grid: Grid, x: u32, y: u32) -> Sample
    requires { Pixel grid x y }
    ensures { sample_in result ≡ sample_at (grid_in grid false) x y 0 }
{
    Sample {
        x: sample(grid.xorigin, grid.xstep, x),
        y: sample(grid.yorigin, grid.ystep, y),
        z: grid.zorigin,
    }
}

// Side 1 is run on values.
fn from_sample(code: &[u64], grid: Grid, x: u32, y: u32) -> Stop
    requires sound { Sound code.now }
    requires pixel { Pixel grid x y }
    ensures { StopsAs [] 1 code.now grid x y result }
{
    let mut slots = [0i32; SLOT_LIMIT];
    let v = run_values(code, pixel_sample(grid, x, y), &mut slots);
    stop_at(1, Span { low: v, high: v }, code.len())
}

// The judge on the region of this side that holds the pixel. Its marks are read by no other level, so that all write
// them to one place.
fn judge_at(
    whole: &[u64],
    code: &[u64],
    grid: Grid,
    x: u32,
    y: u32,
    side: u32,
    work: &mut [u8],
    next: &mut [u64],
) -> Judgement
    requires for_level { ForLevel whole.now code.now grid x y work.old next.old }
    requires le_side { (1 ≤ side) × (side ≤ size_limit) }
    ensures { JudgedAt whole.now code.now grid side x y
        work.new next.new result }
{
    let cell = cell_at(grid, 1, x / side * side, y / side * side, 0, side);
    judge(
        whole,
        code,
        flat_bounds(grid, cell),
        work,
        whole.len(),
        next,
    )
}

fn from_eight(
    whole: &[u64],
    code: &[u64],
    grid: Grid,
    x: u32,
    y: u32,
    work: &mut [u8],
    second: &mut [u64],
) -> Stop
    requires { ForLevel whole.now code.now grid x y work.old second.old }
    ensures { StopsAs (1 ∷ []) 8 code.now grid x y result }
{
    let judged = judge_at(whole, code, grid, x, y, 8, work, second);
    let range = judged.range;
    let outcome = judged.outcome;
    match outcome {
        Outcome::Full => stop_at(8, range, code.len()),
        Outcome::Empty => stop_at(8, range, code.len()),
        Outcome::Cut(start) => {
            let short = &second[start..];
            from_sample(short, grid, x, y)
        }
    }
}

pub fn from_tile(
    whole: &[u64],
    grid: Grid,
    x: u32,
    y: u32,
    work: &mut [u8],
    first: &mut [u64],
    second: &mut [u64],
) -> Stop
    requires for_level { ForLevel whole.now whole.now grid x y work.old first.old }
    requires whole_in_bounds { length whole.now ≤ length second.old }
    ensures { StopsAs (8 ∷ (1 ∷ [])) 64 whole.now grid x y result }
{
    let judged = judge_at(whole, whole, grid, x, y, 64, work, first);
    let range = judged.range;
    let outcome = judged.outcome;
    match outcome {
        Outcome::Full => stop_at(64, range, whole.len()),
        Outcome::Empty => stop_at(64, range, whole.len()),
        Outcome::Cut(start) => {
            let short = &first[start..];
            from_eight(whole, short, grid, x, y, work, second)
        }
    }
}
