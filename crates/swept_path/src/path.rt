// Positions by their numbers, and line 25 at the first and the last sample of each axis.
ghost use Rattle.std.specs.Prelude.{◌≡◌, false, ◌&&◌, ◌-ℤ◌, ◌<◌, length};
ghost use Rattle.faults.specs.Numbers.{fault_of};
ghost use Rattle.rules.specs.Values.{reaches};
ghost use Rattle.rules.specs.Drawings.{grid_fault};
ghost use Rattle.picture.specs.Shapes.{grid_in};
ghost use Rattle.swept_rules.specs.Swept.{offsets_of, whole_path, path_fault};
ghost use Rattle.swept_rules.specs.Keeping.{position_at, ends_stay, corners_stay, path_corners};
ghost use Rattle.swept_path.specs.Shapes.{offset_in};
ghost use Rattle.swept_path.specs.Asked.{ForEnds};

use faults::Fault;
use picture::grid::{Grid, sample};

// Twice the most positions of a path.
const PATH_NUMBERS: usize = 8192;

const TOP: u64 = 2147483647;

// What a position takes from x and y.
#[derive(Clone, Copy)]
pub struct Offset {
    pub x: i32,
    pub y: i32,
}

pub fn position(path: &[i32], k: usize) -> Offset
    requires { k < length (offsets_of path.now) }
    ensures { offset_in result ≡ position_at (offsets_of path.now) k }
{
    let at = 2 * k;
    Offset {
        x: path[at],
        y: path[at + 1],
    }
}

// The difference of a sample and an offset is a value.
fn stays(v: i32, d: i32) -> bool
    ensures { result ≡ reaches (v -ℤ d) }
{
    let moved = v as i64 - d as i64;
    moved.unsigned_abs() <= TOP
}

fn ends_stay(origin: i32, step: i32, n: u32, d: i32) -> bool
    requires { ForEnds origin step n }
    ensures { result ≡ ends_stay origin step n d }
{
    stays(sample(origin, step, 0), d) && stays(sample(origin, step, n - 1), d)
}

fn corners_stay(grid: Grid, o: Offset) -> bool
    requires { grid_fault false (grid_in grid false) ≡ 0 }
    ensures { result ≡ corners_stay (grid_in grid false) (offset_in o) }
{
    ends_stay(grid.xorigin, grid.xstep, grid.width, o.x)
        && ends_stay(grid.yorigin, grid.ystep, grid.height, o.y)
}

fn path_stays(grid: Grid, path: &[i32]) -> bool
    requires { grid_fault false (grid_in grid false) ≡ 0 }
    ensures { result ≡ path_corners (grid_in grid false) (offsets_of path.now) }
{
    for k in 0..path.len() / 2 {
        if !corners_stay(grid, position(path, k)) {
            return false;
        }
    }
    true
}

// Positions, and no more than a path has.
fn whole_path(path: &[i32]) -> bool
    ensures { result ≡ whole_path path.now }
{
    1 <= path.len() && path.len() <= PATH_NUMBERS && path.len() % 2 == 0
}

fn path_ok(grid: Grid, path: &[i32]) -> bool
    requires { grid_fault false (grid_in grid false) ≡ 0 }
    ensures { result
        ≡ (whole_path path.now && path_corners (grid_in grid false) (offsets_of path.now)) }
{
    whole_path(path) && path_stays(grid, path)
}

// Line 25, on a grid that holds.
pub fn check_path(grid: Grid, path: &[i32]) -> Result<(), Fault>
    requires { grid_fault false (grid_in grid false) ≡ 0 }
    ensures { fault_of result ≡ path_fault (grid_in grid false) path.now }
{
    if !path_ok(grid, path) {
        return Err(Fault::WrongPath);
    }
    Ok(())
}
