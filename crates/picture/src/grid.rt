// Grids: samples, and refusals 10 and 11.
ghost use Rattle.std.specs.Prelude.{◌≡◌, true, ◌≤◌};
ghost use Rattle.std.specs.Int.{w64};
ghost use Rattle.std.proofs.Common.{SFits};
ghost use Rattle.rules.specs.Values.{IsValue, reaches};
ghost use Rattle.rules.specs.Drawings.{at, size_ok, axis_ok, sizes_ok, axes_ok, grid_fault};
ghost use Rattle.faults.specs.Numbers.{fault_of};
ghost use Rattle.picture.specs.Shapes.{grid_in};

use faults::Fault;

const SIZE_LIMIT: u32 = 512;

const TOP: i64 = 2147483647;

// A grid. A flat drawing reads neither depth nor the third step; its one z is zorigin.
#[repr(C)]
#[derive(Clone, Copy)]
pub struct Grid {
    pub width: u32,
    pub height: u32,
    pub depth: u32,
    pub xorigin: i32,
    pub yorigin: i32,
    pub zorigin: i32,
    pub xstep: i32,
    pub ystep: i32,
    pub zstep: i32,
}

// Sample i of an axis, in the middle of cell i, also one that is no value. With a step below 0 it can leave 64 bits.
fn along(origin: i32, step: i32, i: u32) -> i64
    requires { SFits w64 (at origin step i) }
    ensures { result ≡ at origin step i }
{
    origin as i64 + i as i64 * step as i64 + (step as i64 >> 1)
}

// Sample i of an axis.
pub fn sample(origin: i32, step: i32, i: u32) -> i32
    requires { IsValue (at origin step i) }
    ensures { result ≡ at origin step i }
{
    along(origin, step, i) as i32
}

fn is_value(z: i64) -> bool
    ensures { result ≡ reaches z }
{
    if z < -TOP {
        return false;
    }
    z <= TOP
}

pub fn size_ok(n: u32) -> bool
    ensures { result ≡ size_ok n }
{
    if n < 1 {
        return false;
    }
    n <= SIZE_LIMIT
}

fn axis_ok(origin: i32, step: i32, n: u32) -> bool
    requires { 1 ≤ n }
    ensures { result ≡ axis_ok origin step n }
{
    if !is_value(origin as i64) {
        return false;
    }
    if step < 1 {
        return false;
    }
    is_value(along(origin, step, n - 1))
}

// `solid` is the flag of the rules: `sizes_ok`, `axes_ok` and `grid_fault` speak of both kinds at once.
fn sizes_ok(solid: bool, grid: Grid) -> bool
    ensures { result ≡ sizes_ok solid (grid_in grid solid) }
{
    if !size_ok(grid.width) {
        return false;
    }
    if !size_ok(grid.height) {
        return false;
    }
    if !solid {
        return true;
    }
    size_ok(grid.depth)
}

fn axes_ok(solid: bool, grid: Grid) -> bool
    requires { sizes_ok solid (grid_in grid solid) ≡ true }
    ensures { result ≡ axes_ok solid (grid_in grid solid) }
{
    if !axis_ok(grid.xorigin, grid.xstep, grid.width) {
        return false;
    }
    if !axis_ok(grid.yorigin, grid.ystep, grid.height) {
        return false;
    }
    if !solid {
        return is_value(grid.zorigin as i64);
    }
    axis_ok(grid.zorigin, grid.zstep, grid.depth)
}

// Lines 10 and 11, of a grid: its sizes, and then its axes.
pub fn check_axes(solid: bool, grid: Grid) -> Result<(), Fault>
    ensures { fault_of result ≡ grid_fault solid (grid_in grid solid) }
{
    if !sizes_ok(solid, grid) {
        return Err(Fault::WrongSize);
    }
    if !axes_ok(solid, grid) {
        return Err(Fault::WrongAxis);
    }
    Ok(())
}
