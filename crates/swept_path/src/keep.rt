// The positions that a region keeps, of those that it is handed: a low end of 0 or more drops a position, and behind one
// whose high end is below 0 none is looked at.
ghost use Rattle.fixed.specs.Shapes.{box_in, range_in};
ghost use Rattle.swept_rules.specs.Swept.{offsets_of};
ghost use Rattle.swept_path.specs.Keeps.{ForRange, RangeAt, ForKeep, CoverOf};

use crate::moved::{hull_of, moved_bounds};
use crate::path::position;
use code::run::run_ranges;
use fixed::clause::Bounds;
use fixed::span::Span;

// No position covers any of the region; the first that is kept covers all of it, with its number; or so many are kept.
#[derive(Clone, Copy)]
pub enum Cover {
    Nowhere,
    Everywhere(u16),
    Partly(usize),
}

fn range_at(code: &[u64], bounds: Bounds, path: &[i32], k: usize, work: &mut [u8]) -> Span
    requires { ForRange code.now (box_in bounds) path.now k work.old }
    ensures { RangeAt code.now (box_in bounds) (offsets_of path.now) k (range_in result) }
{
    let moved = moved_bounds(bounds, hull_of(position(path, k)));
    run_ranges(code, moved, work)
}

// What is kept is written to the front of `kept`: a number is counted only if it is kept.
pub fn keep(
    code: &[u64],
    bounds: Bounds,
    path: &[i32],
    from: &[u16],
    kept: &mut [u16],
    work: &mut [u8],
) -> Cover
    requires { ForKeep code.now (box_in bounds) path.now from.now kept.old work.old }
    ensures { CoverOf code.now (box_in bounds) (offsets_of path.now) from.now
        kept.new result }
{
    let mut count = 0;
    for k in from {
        kept[count] = *k;
        let range = range_at(code, bounds, path, *k as usize, work);
        if range.high < 0 {
            if count == 0 {
                return Cover::Everywhere(*k);
            }
            return Cover::Partly(count + 1);
        }
        if range.low < 0 {
            count += 1;
        }
    }
    if count == 0 {
        return Cover::Nowhere;
    }
    Cover::Partly(count)
}
