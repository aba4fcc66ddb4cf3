// Every operation over ranges.
ghost use Rattle.std.specs.Prelude.{◌≡◌, pos};
ghost use Rattle.rules.specs.Values.{pick, range, smaller, larger, holds_zero, of_ends, sum_range, difference_range, product_range};
ghost use Rattle.rules.specs.Values.{quotient, quotient_range, negated_range, absolute_range, square_range, root_range, smaller_range, larger_range};
ghost use Rattle.fixed.specs.Shapes.{range_in, over_ends, ValueEnds, InOrder};

use crate::value;

// A range of values, by its ends.
#[derive(Clone, Copy)]
pub struct Span {
    pub low: i32,
    pub high: i32,
}

// One operation on the low ends and on the high ends.
fn each_end<F: Fn(i32, i32) -> i32>(f: F, a: Span, b: Span) -> Span
    requires of_low { F.pre f a.low b.low }
    requires of_high { F.pre f a.high b.high }
    ensures low { F.post f a.low b.low result.low }
    ensures high { F.post f a.high b.high result.high }
{
    Span {
        low: f(a.low, b.low),
        high: f(a.high, b.high),
    }
}

pub fn add_spans(a: Span, b: Span) -> Span
    ensures { range_in result ≡ sum_range (range_in a) (range_in b) }
{
    each_end(value::add, a, b)
}

pub fn subtract_spans(a: Span, b: Span) -> Span
    ensures { range_in result ≡ difference_range (range_in a) (range_in b) }
{
    Span {
        low: value::subtract(a.low, b.high),
        high: value::subtract(a.high, b.low),
    }
}

// The least and the greatest of four.
fn least(a: i64, b: i64, c: i64, d: i64) -> i64
    ensures { result ≡ smaller (smaller a b) (smaller c d) }
{
    a.min(b).min(c.min(d))
}

fn greatest(a: i64, b: i64, c: i64, d: i64) -> i64
    ensures { result ≡ larger (larger a b) (larger c d) }
{
    a.max(b).max(c.max(d))
}

// The least and the greatest are taken before rounding, which keeps them, so that each end is rounded and clamped once.
pub fn multiply_spans(a: Span, b: Span) -> Span
    ensures { range_in result ≡ product_range (range_in a) (range_in b) }
{
    let p = value::exact_product(a.low, b.low);
    let q = value::exact_product(a.low, b.high);
    let s = value::exact_product(a.high, b.low);
    let t = value::exact_product(a.high, b.high);
    Span {
        low: value::round(least(p, q, s, t)),
        high: value::round(greatest(p, q, s, t)),
    }
}

fn holds_zero(r: Span) -> bool
    ensures { result ≡ holds_zero (range_in r) }
{
    !(0 < r.low) & !(r.high < 0)
}

// The lesser and the greater of a's quotients by both ends.
fn over_ends(a: i32, b: Span) -> Span
    ensures { range_in result ≡ over_ends a (range_in b) }
{
    let p = value::divide(a, b.low);
    let q = value::divide(a, b.high);
    Span {
        low: value::minimum(p, q),
        high: value::maximum(p, q),
    }
}

// From all four quotients of ends, whatever their order.
fn all_four(a: Span, b: Span) -> Span
    ensures { range_in result ≡ of_ends quotient (range_in a) (range_in b) }
{
    let l = over_ends(a.low, b);
    let h = over_ends(a.high, b);
    Span {
        low: value::minimum(l.low, h.low),
        high: value::maximum(l.high, h.high),
    }
}

// The least and the greatest of the four alone: of ends in order the signs tell which they are.
fn two_of_four(a: Span, b: Span) -> Span
    requires { InOrder a b }
    ensures { range_in result ≡ of_ends quotient (range_in a) (range_in b) }
{
    let under = if a.low < 0 { b.low } else { b.high };
    let over = if a.high < 0 { b.high } else { b.low };
    Span {
        low: value::divide(a.low, under),
        high: value::divide(a.high, over),
    }
}

// The order of the ends is tested, since a run does not know it of its slots.
pub fn divide_spans(a: Span, b: Span) -> Span
    ensures { range_in result ≡ quotient_range (range_in a) (range_in b) }
{
    if holds_zero(b) {
        return Span {
            low: -2147483647,
            high: 2147483647,
        };
    }
    if 0 < b.low && a.low <= a.high && b.low <= b.high {
        return two_of_four(a, b);
    }
    all_four(a, b)
}

pub fn negate_span(a: Span) -> Span
    requires { ValueEnds a }
    ensures { range_in result ≡ negated_range (range_in a) }
{
    Span {
        low: value::negate(a.high),
        high: value::negate(a.low),
    }
}

// 0 where the range holds 0, else the least size of its ends.
fn low_size(low: i32, high: i32, least: i32) -> i32
    ensures { result ≡ pick (holds_zero (range low high)) (pos 0) least }
{
    if 0 < low {
        least
    } else if high < 0 {
        least
    } else {
        0
    }
}

pub fn absolute_span(a: Span) -> Span
    requires { ValueEnds a }
    ensures { range_in result ≡ absolute_range (range_in a) }
{
    let first = value::absolute(a.low);
    let last = value::absolute(a.high);
    Span {
        low: low_size(a.low, a.high, value::minimum(first, last)),
        high: value::maximum(first, last),
    }
}

pub fn square_span(a: Span) -> Span
    requires { ValueEnds a }
    ensures { range_in result ≡ square_range (range_in a) }
{
    let s = absolute_span(a);
    Span {
        low: value::square(s.low),
        high: value::square(s.high),
    }
}

// Both roots in one call, which shares their first steps.
pub fn root_span(a: Span) -> Span
    ensures { range_in result ≡ root_range (range_in a) }
{
    let (low, high) = isqrt::roots(a.low, a.high);
    Span { low, high }
}

pub fn minimum_spans(a: Span, b: Span) -> Span
    ensures { range_in result ≡ smaller_range (range_in a) (range_in b) }
{
    each_end(value::minimum, a, b)
}

pub fn maximum_spans(a: Span, b: Span) -> Span
    ensures { range_in result ≡ larger_range (range_in a) (range_in b) }
{
    each_end(value::maximum, a, b)
}
