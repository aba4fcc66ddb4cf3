// Eight values side by side, the lanes, and each operation on all of them. Lanes come and go as arrays by value, which
// the compiler takes several at once; of two references it does not assume that they differ.
#![tactic(auto)]

mod squares;

ghost use Rattle.std.specs.Prelude.{◌≡◌, ◌<◌, neg_ℤ, length};
ghost use Rattle.rules.specs.Values.{sum, difference, product, smaller, larger, quotient, absolute, square, root_of};
ghost use Rattle.lanes.specs.Lanes.{All, NoneNegative, One, OneOfValues, Two, RowOf};

use crate::squares::{absolute_of, square_of, square_of_size};
use fixed::value;
use roots::eight::{each, two};

// The same value in every lane.
pub fn splat(v: i32) -> [i32; 8]
    ensures { All v result }
{
    [v; 8]
}

// In the two that follow a lane may hold the one number of 32 bits that is no value: so the negative is taken by a
// difference, which is clamped, and of a size the lowest 31 bits.
pub fn negate(a: [i32; 8]) -> [i32; 8]
    ensures { OneOfValues neg_ℤ a result }
{
    each(value::opposite, a)
}

pub fn absolute(a: [i32; 8]) -> [i32; 8]
    ensures { OneOfValues absolute a result }
{
    each(absolute_of, a)
}

pub fn square(a: [i32; 8]) -> [i32; 8]
    ensures { One square a result }
{
    each(square_of, a)
}

// The same of sizes, which have no sign to take away.
pub fn square_sizes(n: [i32; 8]) -> [i32; 8]
    requires { NoneNegative n }
    ensures { One square n result }
{
    each(square_of_size, n)
}

// Row `to` becomes the roots of row `from`, which may be the same one. It has several callers, so that it is compiled
// apart, and the rows are read and written where they lie: a row by value would go through memory once more.
pub fn root_row(rows: &mut [[i32; 8]], from: usize, to: usize)
    requires from_in_bounds { from < length rows.old }
    requires to_in_bounds { to < length rows.old }
    ensures { RowOf root_of from to rows.old rows.new }
{
    rows[to] = roots::roots8(rows[from]);
}

pub fn add(a: [i32; 8], b: [i32; 8]) -> [i32; 8]
    ensures { Two sum a b result }
{
    two(value::add, a, b)
}

pub fn subtract(a: [i32; 8], b: [i32; 8]) -> [i32; 8]
    ensures { Two difference a b result }
{
    two(value::subtract, a, b)
}

pub fn multiply(a: [i32; 8], b: [i32; 8]) -> [i32; 8]
    ensures { Two product a b result }
{
    two(value::multiply, a, b)
}

pub fn minimum(a: [i32; 8], b: [i32; 8]) -> [i32; 8]
    ensures { Two smaller a b result }
{
    two(value::minimum, a, b)
}

pub fn maximum(a: [i32; 8], b: [i32; 8]) -> [i32; 8]
    ensures { Two larger a b result }
{
    two(value::maximum, a, b)
}

pub fn divide(a: [i32; 8], b: [i32; 8]) -> [i32; 8]
    ensures { Two quotient a b result }
{
    two(value::divide, a, b)
}
