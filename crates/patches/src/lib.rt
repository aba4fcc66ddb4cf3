// Parts of a flat picture by their bytes: cleared, copied from another picture of the same size, or joined with it bit by
// bit. A part is a rectangle of pixels whose first column begins a byte; every byte outside it stays as it is.
#![tactic(auto)]

ghost use Rattle.std.specs.Prelude.{◌≡◌, ℕ, ◌<◌, ◌≤◌, length, get_or};
ghost use Rattle.picture.specs.Bits.{Within};
ghost use Rattle.patches.specs.Patches.{nothing, bytes_in, joined, BytesSet, PartSet};

use picture::bits::stride;

// Pixels x to xend of the rows y to yend.
#[derive(Clone, Copy)]
pub struct Part {
    pub x: usize,
    pub y: usize,
    pub xend: usize,
    pub yend: usize,
    pub ghost in_order: { y ≤ yend },
}

// Sets the bytes from one place to before another: `becomes` says of a byte and its place what it becomes.
fn set_bytes<F: Fn(u8, usize) -> u8>(picture: &mut [u8], from: usize, to: usize, becomes: &F)
    requires in_order { from ≤ to }
    requires end_in_picture { to ≤ length picture.old }
    requires callable { (b i : ℕ) → i < length picture.old → F.pre becomes.now b i }
    ensures { (g : ℕ → ℕ → ℕ) → ((b i r : ℕ) → F.post becomes.now b i r → r ≡ g b i)
        → BytesSet from to (λ i. g (get_or picture.old i 0) i) picture.old picture.new }
{
    for i in from..to {
        picture[i] = becomes(picture[i], i);
    }
}

// Sets the bytes of a part, row by row.
fn set_part<F: Fn(u8, usize) -> u8>(picture: &mut [u8], width: usize, part: Part, becomes: F)
    requires within { Within width part.x part.xend part.yend picture.old }
    requires callable { (b i : ℕ) → i < length picture.old → F.pre becomes b i }
    ensures { (g : ℕ → ℕ → ℕ) → ((b i r : ℕ) → F.post becomes b i r → r ≡ g b i)
        → PartSet width part.x part.xend part.y part.yend (λ i. g (get_or picture.old i 0) i) picture.old picture.new }
{
    let row = stride(width);
    for j in part.y..part.yend {
        set_bytes(
            picture,
            j * row + part.x / 8,
            j * row + (part.xend + 7) / 8,
            &becomes,
        );
    }
}

pub fn clear_part(picture: &mut [u8], width: usize, part: Part)
    requires { Within width part.x part.xend part.yend picture.old }
    ensures { PartSet width part.x part.xend part.y part.yend nothing picture.old picture.new }
{
    set_part(picture, width, part, |_, _| 0)
}

pub fn join_part(other: &[u8], picture: &mut [u8], width: usize, part: Part)
    requires within { Within width part.x part.xend part.yend picture.old }
    requires other_len { length other.now ≡ length picture.old }
    ensures { PartSet width part.x part.xend part.y part.yend (joined picture.old other.now)
        picture.old picture.new }
{
    set_part(picture, width, part, |byte, i| byte | other[i])
}

// It takes the numbers of the part, since verdict_drawing calls it with them.
pub fn copy_part(
    other: &[u8],
    picture: &mut [u8],
    width: usize,
    x: usize,
    y: usize,
    xend: usize,
    yend: usize,
)
    requires within { Within width x xend yend picture.old }
    requires rows_in_order { y ≤ yend }
    requires other_len { length other.now ≡ length picture.old }
    ensures { PartSet width x xend y yend (bytes_in other.now)
        picture.old picture.new }
{
    let part = Part { x, y, xend, yend };
    set_part(picture, width, part, |_, i| other[i])
}
