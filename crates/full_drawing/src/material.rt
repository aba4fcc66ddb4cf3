// Whether a sample has material: the whole tape's result there is below 0.
ghost use Rattle.code.specs.Words.{Runnable};
ghost use Rattle.code.specs.Runs.{SampleOk};
ghost use Rattle.full_drawing.specs.Full.{sample_in, Says};

use code::run::run_values;
use fixed::clause::Sample;
use picture::grid::{Grid, sample};
use tape::SLOT_LIMIT;

// At pixel i of row j, where z is the sample's third number.
pub fn has_material(code: &[u64], grid: Grid, i: u32, j: u32, z: i32) -> bool
    requires runnable { Runnable code.now }
    requires sample_ok { SampleOk (sample_in grid i j z) }
    ensures { Says code.now (sample_in grid i j z) result }
{
    let x = sample(grid.xorigin, grid.xstep, i);
    let y = sample(grid.yorigin, grid.ystep, j);
    let mut slots = [0i32; SLOT_LIMIT];
    run_values(code, Sample { x, y, z }, &mut slots) < 0
}
