// Every operation on a value with its slopes.
ghost use Rattle.std.specs.Prelude.{◌≡◌, pos, neg_ℤ};
ghost use Rattle.rules.specs.Values.{pick, below, sum, difference, product, square, absolute, root_of, quotient};
ghost use Rattle.rules.specs.Slopes.{by_sign, twice, zero_at};
ghost use Rattle.slope_values.specs.Shapes.{each, each_of_two, AllValues};

use crate::axis;
use fixed::value;

// A value, and its slopes on x, y and z.
#[derive(Clone, Copy)]
pub struct Sloped {
    pub value: i32,
    pub x: i32,
    pub y: i32,
    pub z: i32,
}

// A value, and one operation on the slopes of one operand, or of two.
#[inline(always)]
fn each<F: Fn(i32) -> i32>(value: i32, f: F, a: Sloped) -> Sloped
    requires on_x { F.pre f a.x }
    requires on_y { F.pre f a.y }
    requires on_z { F.pre f a.z }
    ensures value { result.value ≡ value }
    ensures x { F.post f a.x result.x }
    ensures y { F.post f a.y result.y }
    ensures z { F.post f a.z result.z }
{
    Sloped {
        value,
        x: f(a.x),
        y: f(a.y),
        z: f(a.z),
    }
}

#[inline(always)]
fn each_of_two<F: Fn(i32, i32) -> i32>(value: i32, f: F, a: Sloped, b: Sloped) -> Sloped
    requires on_x { F.pre f a.x b.x }
    requires on_y { F.pre f a.y b.y }
    requires on_z { F.pre f a.z b.z }
    ensures value { result.value ≡ value }
    ensures x { F.post f a.x b.x result.x }
    ensures y { F.post f a.y b.y result.y }
    ensures z { F.post f a.z b.z result.z }
{
    Sloped {
        value,
        x: f(a.x, b.x),
        y: f(a.y, b.y),
        z: f(a.z, b.z),
    }
}

pub fn negate(a: Sloped) -> Sloped
    ensures { AllValues a → result ≡ each (neg_ℤ a.value) neg_ℤ a }
{
    each(value::opposite(a.value), value::opposite, a)
}

pub fn absolute(a: Sloped) -> Sloped
    ensures { AllValues a → result ≡ each (absolute a.value) (by_sign a.value) a }
{
    each(
        axis::by_sign(a.value, a.value),
        |p| axis::by_sign(a.value, p),
        a,
    )
}

pub fn square(a: Sloped) -> Sloped
    ensures { result ≡ each (square a.value) (λ p. twice (product a.value p)) a }
{
    each(value::square(a.value), |p| axis::of_square(a.value, p), a)
}

pub fn root(a: Sloped) -> Sloped
    ensures { result ≡ each (root_of a.value) (λ p. zero_at (root_of a.value)
        (quotient p (twice (root_of a.value)))) a }
{
    let v = isqrt::root(a.value);
    each(v, |p| axis::of_root(p, v), a)
}

pub fn add(a: Sloped, b: Sloped) -> Sloped
    ensures { result ≡ each_of_two (sum a.value b.value) sum a b }
{
    each_of_two(value::add(a.value, b.value), value::add, a, b)
}

pub fn subtract(a: Sloped, b: Sloped) -> Sloped
    ensures { result ≡ each_of_two (difference a.value b.value) difference a b }
{
    each_of_two(value::subtract(a.value, b.value), value::subtract, a, b)
}

pub fn multiply(a: Sloped, b: Sloped) -> Sloped
    ensures { result ≡ each_of_two (product a.value b.value)
        (λ p q. sum (product p b.value) (product a.value q)) a b }
{
    let m = a.value;
    let n = b.value;
    each_of_two(
        value::multiply(m, n),
        |p, q| axis::of_product(p, q, m, n),
        a,
        b,
    )
}

// The side that wins, left on a tie.
pub fn minimum(a: Sloped, b: Sloped) -> Sloped
    ensures { result ≡ pick (below b.value a.value) b a }
{
    if b.value < a.value { b } else { a }
}

pub fn maximum(a: Sloped, b: Sloped) -> Sloped
    ensures { result ≡ pick (below a.value b.value) b a }
{
    if a.value < b.value { b } else { a }
}

pub fn divide(a: Sloped, b: Sloped) -> Sloped
    ensures { result ≡ each_of_two (quotient a.value b.value) (λ p q. zero_at b.value
        (quotient (difference p (product (quotient a.value b.value) q)) b.value)) a b }
{
    let n = b.value;
    let v = value::divide(a.value, n);
    each_of_two(v, |p, q| axis::of_quotient(p, q, n, v), a, b)
}
