// The root of a value: the whole part of the square root of 65,536·a, and 0 where a is negative.
// A table gives an estimate that is mostly exact, else one off; comparing squares then settles it.
// The settling is right for every estimate, so nothing has to be known of the table but its size.
// The library's isqrt halves an interval 32 times: 178 ns a root, where this takes 13.
#![tactic(auto)]

mod table;

ghost use Rattle.std.specs.Prelude.{◌≡◌, pos, ◌+◌, ◌*◌, ◌^◌, ◌≤◌, ◌<◌};
ghost use Rattle.rules.specs.Values.{root_of};

use crate::table::line;

pub fn root(a: i32) -> i32
    ensures { result ≡ root_of a }
{
    let m = positive_part(a);
    root_by(m, half_shift(m))
}

// The roots of the two ends of a range. Both shifts come first: counting zeros waits for the register that it writes, so
// that two roots one after the other would not overlap.
pub fn roots(low: i32, high: i32) -> (i32, i32)
    ensures { (result.0 ≡ root_of low) × (result.1 ≡ root_of high) }
{
    let m = positive_part(low);
    let n = positive_part(high);
    let shift_m = half_shift(m);
    let shift_n = half_shift(n);
    (root_by(m, shift_m), root_by(n, shift_n))
}

// A negative value's root is that of 0.
pub fn positive_part(a: i32) -> u32
    ensures { (result ≤ 2147483647) × (root_of (pos result) ≡ root_of a) }
{
    if a < 0 { 0 } else { a as u32 }
}

// Half of the largest even shift that keeps m within 32 bits; 0 for 0.
fn half_shift(m: u32) -> u32
    ensures { result < 16 }
{
    m.leading_zeros() % 32 / 2
}

// m's root, with the shift at hand.
fn root_by(m: u32, half: u32) -> i32
    requires { (m ≤ 2147483647) × (half < 16) }
    ensures { result ≡ root_of (pos m) }
{
    let far = estimate(m << (2 * half));
    settled(m as u64 * 65536, far >> half) as i32
}

// The whole root of n, from any estimate.
fn settled(n: u64, estimate: u32) -> u64
    requires { n < 2 ^ 48 }
    ensures { (result * result ≤ n) × (n < (result + 1) * (result + 1)) }
{
    raised(n, lowered(n, estimate))
}

// Down from the estimate while its square is above n.
fn lowered(n: u64, estimate: u32) -> u64
    ensures { result * result ≤ n }
{
    // A search down from an estimate, which counts no index.
    let mut r = estimate as u64;
    while n < r * r {
        r -= 1;
    }
    r
}

// Up from a number whose square is at most n while the next one's is too.
fn raised(n: u64, start: u64) -> u64
    requires { (start * start ≤ n) × (n < 2 ^ 48) }
    ensures { (result * result ≤ n) × (n < (result + 1) * (result + 1)) }
{
    // A search up, which counts no index.
    let mut r = start;
    while (r + 1) * (r + 1) <= n {
        r += 1;
    }
    r
}

// Near the square root of 65,536·m, for m from 2^30 up.
fn estimate(m: u32) -> u32 {
    let entry = line(m / 0x100_0000);
    corrected(m, on_line(m, entry), entry % 65536)
}

// On the table's line at m, which lies under the root, by 64 at most.
fn on_line(m: u32, entry: u64) -> u64
    requires { entry < 2 ^ 40 }
    ensures { result < 2 ^ 25 }
{
    entry / 65536 + (m % 0x100_0000) as u64 * (entry % 65536) / 0x100_0000
}

// What the square of `start` lacks of 65,536·m, times the slope there, is what `start` lacks. The
// 2^50 keeps the difference from 0 up, and is lost in the rest by 2^32. The 2^20 lifts the result
// by some 0.04, since a root that is whole would else come out one low as often as not.
fn corrected(m: u32, start: u64, slope: u64) -> u32
    requires { (start < 2 ^ 25) × (slope < 65536) }
{
    let lacks = (m as u64 * 65536 + 0x4_0000_0010_0000 - start * start) % 0x1_0000_0000;
    (start + lacks * slope / 0x100_0000_0000) as u32
}
