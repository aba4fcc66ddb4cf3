// The slopes on one axis that take more than one operation: p and q are the operands' slopes, a and b their values, v
// the clause's value.
ghost use Rattle.std.specs.Prelude.{◌≡◌};
ghost use Rattle.rules.specs.Values.{IsValue, sum, difference, product, quotient};
ghost use Rattle.rules.specs.Slopes.{by_sign, twice, zero_at};

use fixed::value;

// p may be the one number of 32 bits that is no value, so the negative is taken by a difference, which is clamped.
pub fn by_sign(a: i32, p: i32) -> i32
    ensures { IsValue p → result ≡ by_sign a p }
{
    if a < 0 {
        value::opposite(p)
    } else if 0 < a {
        p
    } else {
        0
    }
}

pub fn doubled(t: i32) -> i32
    ensures { result ≡ twice t }
{
    value::add(t, t)
}

pub fn of_square(a: i32, p: i32) -> i32
    ensures { result ≡ twice (product a p) }
{
    doubled(value::multiply(a, p))
}

pub fn of_root(p: i32, v: i32) -> i32
    ensures { result ≡ zero_at v (quotient p (twice v)) }
{
    if v == 0 {
        return 0;
    }
    value::divide(p, doubled(v))
}

pub fn of_product(p: i32, q: i32, a: i32, b: i32) -> i32
    ensures { result ≡ sum (product p b) (product a q) }
{
    value::add(value::multiply(p, b), value::multiply(a, q))
}

pub fn of_quotient(p: i32, q: i32, b: i32, v: i32) -> i32
    ensures { result ≡ zero_at b (quotient (difference p (product v q)) b) }
{
    if b == 0 {
        return 0;
    }
    value::divide(value::subtract(p, value::multiply(v, q)), b)
}
