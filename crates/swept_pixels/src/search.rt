// The search over positions.
ghost use Rattle.fixed.specs.Shapes.{sample_in};
ghost use Rattle.code.specs.Runs.{Lent};
ghost use Rattle.swept_rules.specs.Swept.{offsets_of};
ghost use Rattle.swept_pixels.specs.Searches.{ForSearch, Found};

use code::run::run_values;
use fixed::clause::Sample;
use swept_path::moved::moved_sample;
use swept_path::path::position;
use tape::SLOT_LIMIT;

// 1 + the number of the first position of the list that covers the sample, or 0. The scope paper gives the form: the search
// leaves its loop with the number as break value.
pub fn first_cover(
    code: &[u64],
    s: Sample,
    path: &[i32],
    list: &[u16],
    slots: &mut [i32; SLOT_LIMIT],
) -> u16
    requires { ForSearch code.now (sample_in s) path.now list.now slots.old }
    ensures found { Found code.now (sample_in s) (offsets_of path.now) list.now result }
    ensures lent { Lent slots.new }
{
    let mut m = 0;
    let first = loop {
        if list.len() <= m {
            return 0;
        }
        let k = list[m];
        let moved = moved_sample(s, position(path, k as usize));
        let value = run_values(code, moved, slots);
        if value < 0 {
            break k;
        }
        m += 1;
    };
    first + 1
}
