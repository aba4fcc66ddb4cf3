// A point under the cursor: which coordinates are taken, and the units that they are rounded down to.
ghost use Rattle.std.specs.Prelude.{◌≡◌, true};
ghost use Rattle.rules.specs.Probes.{coordinate_ok, point_fault, rounded_down, rounded_point};
ghost use Rattle.faults.specs.Numbers.{fault_of};
ghost use Rattle.fixed.specs.Shapes.{sample_in};
ghost use Rattle.promises.specs.Sides.{point_in};

use faults::Fault;
use fixed::clause::Sample;
use promises::Point;
use std::num::truncating_f64_to_i64;

// What is not a number is neither at most nor at least anything.
fn coordinate_ok(c: f64) -> bool
    ensures { result ≡ coordinate_ok c }
{
    (c <= 32767.0) & (c >= -32767.0)
}

// Line 20, of a point.
pub fn check_point(p: Point) -> Result<(), Fault>
    ensures { fault_of result ≡ point_fault (point_in p) }
{
    if coordinate_ok(p.x) & (coordinate_ok(p.y) & coordinate_ok(p.z)) {
        return Ok(());
    }
    Err(Fault::WrongCoordinate)
}

// The product is exact, also of the least f64 that there are. Its whole part is the unit, or one above it where the
// product is below 0 and not whole.
fn rounded_down(c: f64) -> i32
    requires { coordinate_ok c ≡ true }
    ensures { result ≡ rounded_down c }
{
    let units = c * 65536.0;
    let whole = truncating_f64_to_i64(units);
    if units < whole as f64 {
        return (whole - 1) as i32;
    }
    whole as i32
}

pub fn rounded_point(p: Point) -> Sample
    requires { point_fault (point_in p) ≡ 0 }
    ensures { sample_in result ≡ rounded_point (point_in p) }
{
    Sample {
        x: rounded_down(p.x),
        y: rounded_down(p.y),
        z: rounded_down(p.z),
    }
}
