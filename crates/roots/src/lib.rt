// The roots of eight values side by side, the lanes: for each an estimate in f64 by one division, which is the root or
// one more, and a step down where its square is above. Every lane does the same, so that the compiler takes several at
// once.
#![tactic(auto)]

pub mod eight;

ghost use Rattle.std.specs.Prelude.{◌≡◌, not, ℕ, ◌<◌, T, pos};
ghost use Rattle.std.specs.Float.Ieee.{is_nan};
ghost use Rattle.rules.specs.Values.{root_of};
ghost use Rattle.roots.specs.Eight.{One};
ghost use Rattle.roots.specs.Estimates.{number_of, first_of, Number, Halves, Estimate};

use crate::eight::each;

pub fn roots8(a: [i32; 8]) -> [i32; 8]
    ensures { One root_of a result }
{
    each(root, a)
}

fn root(a: i32) -> i32
    ensures { result ≡ root_of a }
{
    let x = number(a);
    stepped(x, estimate(x))
}

// A value's positive part, and 2^-17 more, so that it is not 0.
fn number(a: i32) -> f64
    ensures { Number a result }
{
    isqrt::positive_part(a) as f64 + 0.00000762939453125
}

// Near the root of x, by halving its exponent.
fn first(x: f64) -> f64
    requires { Halves x }
    ensures { result ≡ first_of x }
{
    f64::from_bits(f64::to_bits(x) / 2 + 0x1FF76C0000000000)
}

// The root of x in 256ths, which are the last bits of the result, since 2^44 is added: two steps of Heron's method with
// one division. The two factors, for 1/4 and 1, spread its error to both sides of the root.
fn estimate(x: f64) -> f64
    requires { Halves x }
    ensures { (m : ℕ) → m < 2147483648 → x ≡ number_of m → Estimate m result }
{
    let a = first(x);
    let q = a * a;
    let u = q + x;
    (u * u * 0.249847412109375 + q * x) * (1.00030529499053955078125 / (a * u)) + 17592186044416.0
}

// The estimate, or one less where its square is above.
fn stepped(x: f64, t: f64) -> i32
    requires { T (not (is_nan t)) }
    ensures { (m : ℕ) → m < 2147483648 → x ≡ number_of m → Estimate m t → result ≡ root_of (pos m) }
{
    let e = (f64::to_bits(t) % 16777216) as i32;
    let s = t - 17592186044416.0;
    if x < s * s { e - 1 } else { e }
}
