// Samples and boxes less the offsets of positions. A moved grid would be no grid, since its origin need not be a value: so
// these are moved themselves.
ghost use Rattle.std.specs.Prelude.{◌≡◌, get_or, drop};
ghost use Rattle.fixed.specs.Shapes.{box_in, sample_in};
ghost use Rattle.swept_rules.specs.Swept.{offsets_of};
ghost use Rattle.swept_rules.specs.Keeping.{hull_of, widened, hull_from, position_at};
ghost use Rattle.swept_path.specs.Shapes.{offset_in, hull_in};
ghost use Rattle.swept_path.specs.Asked.{ForSample, SampleMoved, ForBox, BoxMoved, ForHull};

use crate::path::{Offset, position};
use fixed::clause::{Bounds, Sample};
use fixed::span::{Span, subtract_spans};
use fixed::value::{maximum, minimum, subtract};

// The offsets of some positions, from the least to the greatest on each axis.
#[derive(Clone, Copy)]
pub struct Hull {
    pub xs: Span,
    pub ys: Span,
}

pub fn moved_sample(s: Sample, o: Offset) -> Sample
    requires { ForSample (sample_in s) (offset_in o) }
    ensures { SampleMoved (sample_in s) (offset_in o) (sample_in result) }
{
    Sample {
        x: subtract(s.x, o.x),
        y: subtract(s.y, o.y),
        z: s.z,
    }
}

// A box less every offset of a hull. It has the shape of `moved_sample` and no field, type or operation in common with it.
pub fn moved_bounds(b: Bounds, h: Hull) -> Bounds
    requires { ForBox (box_in b) (hull_in h) }
    ensures { BoxMoved (box_in b) (hull_in h) (box_in result) }
{
    Bounds {
        xs: subtract_spans(b.xs, h.xs),
        ys: subtract_spans(b.ys, h.ys),
        zs: b.zs,
    }
}

pub fn hull_of(o: Offset) -> Hull
    ensures { hull_in result ≡ hull_of (offset_in o) }
{
    let xs = Span {
        low: o.x,
        high: o.x,
    };
    let ys = Span {
        low: o.y,
        high: o.y,
    };
    Hull { xs, ys }
}

fn widen(h: Hull, o: Offset) -> Hull
    ensures { hull_in result ≡ widened (hull_in h) (offset_in o) }
{
    let xs = Span {
        low: minimum(h.xs.low, o.x),
        high: maximum(h.xs.high, o.x),
    };
    let ys = Span {
        low: minimum(h.ys.low, o.y),
        high: maximum(h.ys.high, o.y),
    };
    Hull { xs, ys }
}

// The hull of the positions of a list.
pub fn hull_over(path: &[i32], list: &[u16]) -> Hull
    requires { ForHull path.now list.now }
    ensures { let os = offsets_of path.now in
        hull_in result ≡ hull_from os (hull_of (position_at os (get_or list.now 0 0))) (drop 1 list.now) }
{
    let mut hull = hull_of(position(path, list[0] as usize));
    for k in &list[1..] {
        hull = widen(hull, position(path, *k as usize));
    }
    hull
}
