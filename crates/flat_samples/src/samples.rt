// Side 1: the samples of a region of side 8, all rows in one sweep, and each row of at most 8 stored as one byte.
ghost use Rattle.std.specs.Prelude.{◌≡◌, false, [], ℕ, ◌+◌, ◌-◌, ◌≤◌, ltb, length};
ghost use Rattle.rules.specs.Values.{pick, is_neg};
ghost use Rattle.rules.specs.Drawings.{along_x, along_y};
ghost use Rattle.rules.specs.Accepted.{Accepted};
ghost use Rattle.code.specs.Words.{tape_in};
ghost use Rattle.sweep.specs.Chunks.{block_rows};
ghost use Rattle.picture.specs.Bits.{row_byte, StoredRow};
ghost use Rattle.picture.specs.Parts.{Blank, Apart};
ghost use Rattle.picture.specs.Shapes.{grid_in};
ghost use Rattle.walk.specs.Walks.{Folds};
ghost use Rattle.flat_samples.specs.Rows.{materials, Splats, SignByte, RowsRun};
ghost use Rattle.flat_samples.specs.Asked.{ForRun, ForRow, ForRows};

use axis_lanes::lane_samples;
use picture::bits::{store_row, with_pixel};
use picture::grid::Grid;
use sweep::{BLOCK, run_chunks};
use walk::cell::Cell;

// Each value in all lanes of a row.
fn splats(vs: [i32; 8]) -> [[i32; 8]; 8]
    ensures { Splats vs result }
{
    let mut r = [[0i32; 8]; 8];
    for c in 0..8 {
        r[c] = lanes::splat(vs[c]);
    }
    r
}

// The values of the parent's samples, a row a chunk: their slot. Lanes past a row's last sample run on it again.
fn run_rows(code: &[u64], grid: Grid, parent: Cell, slots: &mut [[i32; 8]; BLOCK]) -> usize
    requires { ForRun code.now grid parent slots.old }
    ensures { RowsRun code.now grid parent slots.new result }
{
    let xs = lane_samples(grid.xorigin, grid.xstep, parent.x, parent.xend);
    let ys = splats(lane_samples(grid.yorigin, grid.ystep, parent.y, parent.yend));
    let zs = splats(lanes::splat(grid.zorigin));
    run_chunks(code, xs, &ys, &zs, (parent.yend - parent.y) as usize, slots)
}

// Whether a lane's sample has material: its value is below 0. A lane past the row's last sample has none.
fn lane_on(v: i32, k: u32, count: u32) -> bool
    ensures { result ≡ pick (ltb k count) (is_neg v) false }
{
    if k < count { v < 0 } else { false }
}

// The signs of the first lanes, the first in the highest bit: 1 is below 0. Each turn has its own constant place, so
// that the lanes are taken several at once.
fn sign_byte(row: [i32; 8], count: u32) -> u8
    requires { count ≤ 8 }
    ensures { SignByte count row result }
{
    // With a `for` and `&&` for the test of a lane a flat drawing took 1.04 times as long, a bracket 1.07 times.
    let mut byte = 0u8;
    let mut k = 0u32;
    while k < 8 {
        byte = with_pixel(byte, k, lane_on(row[k as usize], k, count));
        k += 1;
    }
    byte
}

// One row of samples of the parent by their values, each counted as a run of the words. Whatever its byte held, each
// sample's bit is its material; where the byte was 0, this is what the walk draws.
fn store_signs(
    code: &[u64],
    grid: Grid,
    parent: Cell,
    row: [i32; 8],
    y: u32,
    picture: &mut [u8],
) -> u64
    requires { ForRow code.now grid parent row y picture.old }
    ensures by_index { (n : ℕ) → Accepted (tape_in n code.now)
        → StoredRow grid.width parent.x y
        (row_byte (materials (parent.xend - parent.x) (tape_in n code.now) (grid_in grid false) parent.x
        y))
        picture.old picture.new }
    ensures folds { Blank grid.width parent.x (parent.x + 8) y (y + 1) picture.old
        → Folds false 8 code.now grid [] (along_x 8 parent.x y 0 1 parent.xend)
        picture.old picture.new result }
    ensures apart { Apart grid.width parent.x (parent.x + 8) y (y + 1) picture.old
        picture.new }
{
    let byte = sign_byte(row, parent.xend - parent.x);
    store_row(
        picture,
        grid.width as usize,
        parent.x as usize,
        y as usize,
        byte,
    );
    (parent.xend - parent.x) as u64 * code.len() as u64
}

pub fn sample_rows(
    code: &[u64],
    grid: Grid,
    parent: Cell,
    slots: &mut [[i32; 8]; BLOCK],
    picture: &mut [u8],
) -> u64
    requires { ForRows code.now grid parent slots.old picture.old }
    ensures folds { Folds false 64 code.now grid []
        (along_y 8 8 parent.x parent.y 0 1 parent.xend parent.yend)
        picture.old picture.new result }
    ensures slots_len { length slots.new ≡ block_rows }
    ensures apart { Apart grid.width parent.x (parent.x + 8) parent.y (parent.y + 8)
        picture.old picture.new }
{
    let at = run_rows(code, grid, parent, slots);
    let mut count: u64 = 0;
    for y in parent.y..parent.yend {
        let row = slots[8 * at + (y - parent.y) as usize];
        count += store_signs(code, grid, parent, row, y, picture);
    }
    count
}
