// A chunk that no edge of the grid cuts: its eight samples are settled side by side.
ghost use Rattle.std.specs.Prelude.{◌≡◌, true, [], ◌≤◌};
ghost use Rattle.walk.specs.Walks.{Folds};
ghost use Rattle.solid_samples.specs.Samples.{with_sample};
ghost use Rattle.solid_samples.specs.Chunks.{chunk_in};
ghost use Rattle.solid_samples.specs.Whole.{FourFrom, heights_of, one_below, all_below, put_row, Raised, ForWhole};

use picture::grid::Grid;
use walk::cell::Cell;

// The height with the sample: raised to `height` where its value is below 0.
pub fn raised(now: u16, height: u16, value: i32) -> u16
    ensures { result ≡ with_sample now height value }
{
    let top = if now < height { height } else { now };
    if value < 0 { top } else { now }
}

// The heights of four pixels from `lower` on and of four from `upper` on.
fn heights(picture: &[u16], lower: usize, upper: usize) -> [u16; 8]
    requires four_from { FourFrom lower picture.now }
    requires four_from_upper { FourFrom upper picture.now }
    ensures { result ≡ heights_of picture.now lower upper }
{
    [
        picture[lower],
        picture[lower + 1],
        picture[lower + 2],
        picture[lower + 3],
        picture[upper],
        picture[upper + 1],
        picture[upper + 2],
        picture[upper + 3],
    ]
}

// The heights with the samples. A loop over eight lanes is compiled to one turn.
fn raise(before: [u16; 8], height: u16, values: &[i32; 8]) -> [u16; 8]
    ensures { Raised before height values.now result }
{
    let mut r = [0u16; 8];
    for k in 0..8 {
        r[k] = raised(before[k], height, values[k]);
    }
    r
}

// Added one by one, like the places of chunks as numbers: a chain that counts, places that are options and the chunks as one
// struct were tried, and drawing a solid took 1.08 times as long, a tray 1.19 times.
fn one_below(now: u16, height: u16) -> u16
    ensures { (result ≡ one_below now height) × (result ≤ 1) }
{
    if now < height { 1 } else { 0 }
}

// How many of the heights are below `height`: these samples are seen.
fn below(before: [u16; 8], height: u16) -> u64
    ensures { (result ≡ all_below before height) × (result ≤ 8) }
{
    let lower = one_below(before[0], height)
        + one_below(before[1], height)
        + one_below(before[2], height)
        + one_below(before[3], height);
    let upper = one_below(before[4], height)
        + one_below(before[5], height)
        + one_below(before[6], height)
        + one_below(before[7], height);
    (lower + upper) as u64
}

// Four pixels from `at` on take the heights of four lanes.
fn put_four(picture: &mut [u16], at: usize, row: &[u16; 8], first: usize)
    requires four_from { FourFrom at picture.old }
    requires first_bound { first ≤ 4 }
    ensures { picture.new ≡ put_row 4 picture.old at row.now first }
{
    let mut k = 0;
    while k < 4 {
        picture[at + k] = row[first + k];
        k += 1;
    }
}

pub fn settle_whole(
    code: &[u64],
    grid: Grid,
    parent: Cell,
    y: u32,
    z: u32,
    values: &[i32; 8],
    picture: &mut [u16],
) -> u64
    requires { ForWhole code.now grid parent y z values.now picture.old }
    ensures { Folds true 8 code.now grid [] (chunk_in parent y z)
        picture.old picture.new result }
{
    let lower = (y * grid.width + parent.x) as usize;
    let upper = lower + grid.width as usize;
    let height = (z + 1) as u16;
    let before = heights(picture, lower, upper);
    let after = raise(before, height, values);
    put_four(picture, lower, &after, 0);
    put_four(picture, upper, &after, 4);
    below(before, height) * code.len() as u64
}
