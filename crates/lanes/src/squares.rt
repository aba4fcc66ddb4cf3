// The size and the square of one lane. A square is made of the size, whose product the machine makes several at once, and
// is the greatest value where the size is past the last whose square is a value. Only a test of 32 bits is made side by
// side.
ghost use Rattle.std.specs.Prelude.{false, ◌≡◌, ◌%◌, pos, nat_abs};
ghost use Rattle.rules.specs.Values.{IsValue, below, absolute, square};
ghost use Rattle.lanes.specs.Squares.{low_square, clipped_square};

fn size_of(a: i32) -> u32
    ensures { result ≡ nat_abs a }
{
    if a < 0 {
        (0 - a as i64) as u32
    } else {
        a as u32
    }
}

// The low 31 bits of the size: of a value's all.
pub fn absolute_of(a: i32) -> i32
    ensures { IsValue a → result ≡ absolute a }
{
    (size_of(a) % 0x8000_0000) as i32
}

// The low 31 bits of the square.
fn low_square(n: u32) -> i32
    ensures { result ≡ pos (low_square n) }
{
    (n as u64 * n as u64 / 65536 % 0x8000_0000) as i32
}

fn clip(n: u32, p: i32) -> i32
    requires { p ≡ pos (low_square n) }
    ensures { result ≡ pos (clipped_square n) }
{
    if 11863283 < n { 2147483647 } else { p }
}

pub fn square_of(a: i32) -> i32
    ensures { result ≡ square a }
{
    let n = size_of(a);
    clip(n, low_square(n))
}

// Of a size as a number with a sign: such numbers the machine compares several at once.
pub fn square_of_size(n: i32) -> i32
    requires { below n (pos 0) ≡ false }
    ensures { result ≡ square n }
{
    let low = low_square(n as u32);
    if 11863283 < n { 2147483647 } else { low }
}
