// Eight samples of an axis, one a lane.
#![tactic(auto)]

ghost use Rattle.std.specs.Prelude.{◌≡◌, ◌+◌, ◌<◌, ◌≤◌};
ghost use Rattle.rules.specs.Drawings.{size_limit};
ghost use Rattle.axis_lanes.specs.Axes.{ForLanes, LaneSamples};

use picture::grid::sample;

// The index of a lane's sample: past the end the last one's again, so that every lane runs on a sample.
fn lane_index(from: u32, end: u32, k: usize) -> u32
    requires { (from < end) × (end ≤ size_limit) × (k < 8) }
    ensures { (result < end) × (from + k < end → result ≡ from + k) }
{
    let i = from + k as u32;
    if i < end { i } else { end - 1 }
}

// The samples of an axis from an index on.
pub fn lane_samples(origin: i32, step: i32, from: u32, end: u32) -> [i32; 8]
    requires { ForLanes origin step from end }
    ensures { LaneSamples origin step from end result }
{
    let mut r = [0i32; 8];
    for k in 0..8 {
        r[k] = sample(origin, step, lane_index(from, end, k));
    }
    r
}
