// Every operation on values but the root.
ghost use Rattle.std.specs.Prelude.{◌≡◌, negsuc, neg_ℤ, ◌-ℤ◌, ◌*ℤ◌, ◌<◌};
ghost use Rattle.std.specs.Int.Signed.{shr_z};
ghost use Rattle.rules.specs.Values.{IsValue, pick, is_neg, smaller, larger, clamped, floored, sum, difference, product};
ghost use Rattle.rules.specs.Values.{absolute, square, end_of, quotient};

// The lesser and the greater of two whole numbers.
pub fn lesser(a: i64, b: i64) -> i64
    ensures { result ≡ smaller a b }
{
    a.min(b)
}

pub fn greater(a: i64, b: i64) -> i64
    ensures { result ≡ larger a b }
{
    a.max(b)
}

pub fn minimum(a: i32, b: i32) -> i32
    ensures { result ≡ smaller a b }
{
    a.min(b)
}

pub fn maximum(a: i32, b: i32) -> i32
    ensures { result ≡ larger a b }
{
    a.max(b)
}

// Saturated to the whole range of the type first: sums and differences the machine saturates several at once.
pub fn clamp(x: i64) -> i32
    ensures { result ≡ clamped x }
{
    let narrow = x.clamp(-2147483648, 2147483647) as i32;
    narrow.max(-2147483647)
}

pub fn add(a: i32, b: i32) -> i32
    ensures { result ≡ sum a b }
{
    clamp(a as i64 + b as i64)
}

pub fn subtract(a: i32, b: i32) -> i32
    ensures { result ≡ difference a b }
{
    clamp(a as i64 - b as i64)
}

// The product before it is rounded.
pub fn exact_product(a: i32, b: i32) -> i64
    ensures { result ≡ a *ℤ b }
{
    a as i64 * b as i64
}

// Rounded down, as the shift does, and clamped: at −M at once, since the machine multiplies no wide numbers side by
// side.
pub fn round(x: i64) -> i32
    ensures { result ≡ clamped (floored x) }
{
    (x >> 16).clamp(-2147483647, 2147483647) as i32
}

pub fn multiply(a: i32, b: i32) -> i32
    ensures { result ≡ product a b }
{
    round(exact_product(a, b))
}

pub fn negate(a: i32) -> i32
    requires { IsValue a }
    ensures { result ≡ neg_ℤ a }
{
    -a
}

// The same for a number that may be no value, the least of 32 bits: a difference, which is clamped.
pub fn opposite(a: i32) -> i32
    ensures { IsValue a → result ≡ neg_ℤ a }
{
    subtract(0, a)
}

pub fn absolute(a: i32) -> i32
    requires { IsValue a }
    ensures { result ≡ absolute a }
{
    a.abs()
}

pub fn square(a: i32) -> i32
    ensures { result ≡ square a }
{
    multiply(a, a)
}

// −1 − x where n is below 0, else x.
fn mended(n: i64, x: i64) -> i64
    ensures { result ≡ pick (is_neg n) (negsuc 0 -ℤ x) x }
{
    if n < 0 { -1 - x } else { x }
}

// n over d, rounded down, by one unsigned division: −1 − n goes into it where n is below 0, and comes back the same
// way.
fn floor_over(n: i64, d: u64) -> i64
    requires { 0 < d }
    ensures { result ≡ shr_z n d }
{
    let q = mended(n, n) as u64 / d;
    mended(n, q as i64)
}

// x with the sign changed where b is below 0.
fn turned(b: i32, x: i32) -> i64
    ensures { result ≡ pick (is_neg b) (neg_ℤ x) x }
{
    if b < 0 { -(x as i64) } else { x as i64 }
}

// M, 0 or −M, by the sign.
fn end_of(a: i32) -> i32
    ensures { result ≡ end_of a }
{
    if a < 0 {
        -2147483647
    } else if 0 < a {
        2147483647
    } else {
        0
    }
}

// Both signs are changed where the divisor is below 0.
pub fn divide(a: i32, b: i32) -> i32
    ensures { result ≡ quotient a b }
{
    if b == 0 {
        return end_of(a);
    }
    clamp(floor_over(turned(b, a) * 65536, turned(b, b) as u64))
}
