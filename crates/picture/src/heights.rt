// Heights of a solid picture: clearing, raising a rectangle, and the test whether it is high already.
ghost use Rattle.std.specs.Prelude.{◌≡◌, ◌+◌, ◌≤◌, length, replicate};
ghost use Rattle.rules.specs.Drawings.{raise_row, raise_rows, row_high, rows_high};
ghost use Rattle.picture.specs.Heights.{RowsFit};

pub fn clear(heights: &mut [u16])
    ensures { heights.new ≡ replicate (length heights.old) 0 }
{
    heights.fill(0);
}

// Raises `count` heights from `from` on to `z`, and lowers none. Every height is stored, also one that stays, so that
// several can be stored at once.
fn raise_row(heights: &mut [u16], from: usize, count: usize, z: u16)
    requires { from + count ≤ length heights.old }
    ensures { heights.new ≡ raise_row count from z heights.old }
{
    for h in &mut heights[from..from + count] {
        *h = (*h).max(z);
    }
}

// Raises a rectangle: `rows` rows of `count` heights, each row `width` behind the one before.
pub fn raise_rows(heights: &mut [u16], rows: usize, width: usize, from: usize, count: usize, z: u16)
    requires { RowsFit rows width from count (length heights.old) }
    ensures { heights.new ≡ raise_rows rows width from count z heights.old }
{
    for j in 0..rows {
        raise_row(heights, from + j * width, count, z);
    }
}

// Whether `count` heights from `from` on are all at least `z`.
fn row_high(heights: &[u16], from: usize, count: usize, z: u16) -> bool
    requires { from + count ≤ length heights.now }
    ensures { result ≡ row_high count from z heights.now }
{
    heights[from..from + count].iter().all(|h| *h >= z)
}

// Whether a rectangle's heights are all at least `z`.
pub fn rows_high(
    heights: &[u16],
    rows: usize,
    width: usize,
    from: usize,
    count: usize,
    z: u16,
) -> bool
    requires { RowsFit rows width from count (length heights.now) }
    ensures { result ≡ rows_high rows width from count z heights.now }
{
    (0..rows).all(|j| row_high(heights, from + j * width, count, z))
}
