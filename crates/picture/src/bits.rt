// A flat picture as bits: the leftmost pixel of a byte is its highest bit, 1 is material, spare bits are 0.
ghost use Rattle.std.specs.Prelude.{◌≡◌, Bool, true, List, [], ◌∷◌, ◌++◌, ℕ, ◌+◌, ◌-◌, ◌*◌, ◌/◌, ◌<◌, ◌≤◌, ltb, length, get_or, set, replicate};
ghost use Rattle.std.specs.Int.Bits.{bit_or};
ghost use Rattle.rules.specs.Values.{when};
ghost use Rattle.rules.specs.Drawings.{size_limit, raise_rows};
ghost use Rattle.rules.specs.Pictures.{stride as stride_of};
ghost use Rattle.picture.specs.Bits.{bit, row_byte, Within, Marked, SpareZero, StoredRow, Shows};
ghost use Rattle.picture.specs.Parts.{KeptOutside, Apart};

pub fn clear(picture: &mut [u8])
    ensures { picture.new ≡ replicate (length picture.old) 0 }
{
    picture.fill(0);
}

// The bytes of one row.
pub fn stride(width: usize) -> usize
    requires { width ≤ size_limit }
    ensures { result ≡ stride_of width }
{
    (width + 7) / 8
}

// Makes the pixels of one byte material where `byte` has a 1.
fn paint(picture: &mut [u8], at: usize, byte: u8)
    requires { at < length picture.old }
    ensures { picture.new ≡ set picture.old at (bit_or (get_or picture.old at 0) byte) }
{
    picture[at] |= byte;
}

// The byte with a 1 at its first `count` pixels alone.
fn first_pixels(count: usize) -> u8
    requires some { 1 ≤ count }
    requires in_byte { count ≤ 8 }
    ensures { (k : ℕ) → k < 8 → bit (7 - k) result ≡ when (ltb k count) 1 }
{
    ((65280u32 >> count) & 255) as u8
}

// The byte with one more pixel, after the first `k`.
pub fn with_pixel(byte: u8, k: u32, on: bool) -> u8
    requires { k < 8 }
    ensures { (bs : List Bool) → length bs ≡ k → byte ≡ row_byte bs → result ≡ row_byte (bs ++ (on ∷ [])) }
{
    let place = 7 - k;
    byte | ((on as u8) << place)
}

// Makes `count` pixels material, from the highest bit of byte `at` on: whole bytes, then the first pixels of the last.
fn fill_row(picture: &mut [u8], at: usize, count: usize)
    requires some { 1 ≤ count }
    requires row_in_picture { 8 * at + count ≤ 8 * length picture.old }
    ensures marked { Marked (8 * at) (replicate count true) picture.old picture.new }
    ensures kept_outside { KeptOutside at (at + (count + 7) / 8) picture.old picture.new }
{
    let last = count - 1;
    let end = at + last / 8;
    picture[at..end].fill(255);
    paint(picture, end, first_pixels(last % 8 + 1));
}

// Makes a rectangle of pixels material.
pub fn fill_rect(picture: &mut [u8], width: usize, x: usize, y: usize, xend: usize, yend: usize)
    requires within { Within width x xend yend picture.old }
    requires rows_in_order { y ≤ yend }
    ensures by_index { (n : ℕ) (h : List ℕ) → Shows width n picture.old h
        → Shows width n picture.new (raise_rows (yend - y) width (y * width + x) (xend - x) 1 h) }
    ensures apart { Apart width x xend y yend picture.old picture.new }
{
    let row = stride(width);
    let first = x / 8;
    let count = xend - x;
    for j in y..yend {
        fill_row(picture, j * row + first, count);
    }
}

// Stores one byte, whatever was there.
fn store(picture: &mut [u8], at: usize, byte: u8)
    requires { at < length picture.old }
    ensures { picture.new ≡ set picture.old at byte }
{
    picture[at] = byte;
}

// Stores the byte of a row of samples, from pixel `x` of row `y` on, with its final bits: no spare bit is set.
pub fn store_row(picture: &mut [u8], width: usize, x: usize, y: usize, byte: u8)
    requires within { Within width x (x + 1) (y + 1) picture.old }
    requires spare_zero { SpareZero width x byte }
    ensures { StoredRow width x y byte picture.old picture.new }
{
    store(picture, y * stride(width) + x / 8, byte);
}
