// The two Netpbm files: a flat picture as a bitmap, and heights.
ghost use Rattle.std.specs.Prelude.{◌≡◌, true, ◌++◌, ℕ, ◌+◌, ◌-◌, ◌*◌, ◌^◌, ◌≤◌, ◌<◌, length};
ghost use Rattle.rules.specs.Pictures.{stride, sides_ok, decimal, head, clean_row, clean_rows, high_first};
ghost use Rattle.netpbm.specs.Appending.{Appends};
ghost use Rattle.netpbm.specs.FileParts.{sizes, spare};
ghost use Rattle.netpbm.specs.Files.{sizes_fault, BitmapSays, HeightsSay};
ghost use Rattle.faults.specs.Numbers.{fault_of};

use crate::append::put;
use crate::decimal::{number_length, put_number};
use faults::Fault;
use picture::grid::size_ok;

fn sides_ok(width: u32, height: u32) -> bool
    ensures { result ≡ sides_ok width height }
{
    size_ok(width) && size_ok(height)
}

// The length of a file whose rows, with all that stands between them and the line of sizes, have `rest` bytes.
pub fn file_length(width: u32, height: u32, rest: usize) -> usize
    requires width_bound { width < 1000 }
    requires height_bound { height < 1000 }
    requires rest_bound { rest < 1000000 }
    ensures { (k : ℕ) → result ≡ length (head k width height) + rest }
{
    let digits = number_length(width as u64) + number_length(height as u64);
    5 + digits + rest
}

// The line of sizes: width, a space, height, a newline.
fn put_sizes(out: &mut [u8], at: usize, width: u32, height: u32) -> usize
    requires width_bound { width < 1000 }
    requires height_bound { height < 1000 }
    requires height_in_bounds { at + length (decimal width) + length (decimal height) + 2 ≤ length out.old }
    ensures { Appends out.old at (sizes width height) out.new result }
{
    let after_width = put_number(out, at, width as u64);
    let after_space = put(out, after_width, b" ");
    let after_height = put_number(out, after_space, height as u64);
    put(out, after_height, b"\n")
}

// The mark, then the line of sizes.
fn put_head(out: &mut [u8], mark: &[u8], width: u32, height: u32) -> usize
    requires width_bound { width < 1000 }
    requires height_bound { height < 1000 }
    requires height_in_bounds { length mark.now + length (decimal width) + length (decimal height) + 2 ≤ length out.old }
    ensures { Appends out.old 0 (mark.now ++ sizes width height) out.new result }
{
    let line = put(out, 0, mark);
    put_sizes(out, line, width, height)
}

// The bits of a row's last byte that are pixels.
fn last_mask(width: usize) -> u8
    requires { width < 1000 }
    ensures { result ≡ 256 - 2 ^ spare width }
{
    let spare = 7 - (width + 7) % 8;
    (256 - (1u32 << spare)) as u8
}

// A row, the spare bits of its last byte cleared.
fn put_row(out: &mut [u8], at: usize, row: &[u8], width: usize) -> usize
    requires le_width { 1 ≤ width }
    requires width_bound { width < 1000 }
    requires row_len { length row.now ≡ stride width }
    requires row_in_bounds { at + length row.now ≤ length out.old }
    ensures { Appends out.old at (clean_row width row.now) out.new result }
{
    let last = row.len() - 1;
    let next = put(out, at, &row[..last]);
    out[next] = row[last] & last_mask(width);
    next + 1
}

fn put_rows(out: &mut [u8], at: usize, picture: &[u8], width: usize, height: usize) -> usize
    requires le_width { 1 ≤ width }
    requires width_bound { width < 1000 }
    requires picture_len { length picture.now ≡ height * stride width }
    requires picture_in_bounds { at + length picture.now ≤ length out.old }
    ensures { Appends out.old at (clean_rows height width picture.now)
        out.new result }
{
    let row = (width + 7) / 8;
    let mut next = at;
    for y in 0..height {
        let start = y * row;
        next = put_row(out, next, &picture[start..start + row], width);
    }
    next
}

// Each height with its high byte first.
fn put_heights(out: &mut [u8], at: usize, picture: &[u16]) -> usize
    requires { at + 2 * length picture.now ≤ length out.old }
    ensures { Appends out.old at (high_first picture.now) out.new result }
{
    let mut next = at;
    for h in picture {
        next = put(out, next, &h.to_be_bytes());
    }
    next
}

// The refusals of both files, in their order: the sides, the picture's length and the output's. Behind its line of sizes,
// with all that stands between, the file has `rest` bytes.
fn check(
    width: u32,
    height: u32,
    given: usize,
    wanted: usize,
    room: usize,
    rest: usize,
) -> Result<(), Fault>
    requires { sides_ok width height ≡ true → given ≡ wanted → rest < 1000000 }
    ensures { (k : ℕ) → fault_of result
        ≡ sizes_fault width height given wanted room (length (head k width height) + rest) }
{
    if !sides_ok(width, height) {
        return Err(Fault::WrongSize);
    }
    if given != wanted {
        return Err(Fault::PictureLength);
    }
    if room != file_length(width, height, rest) {
        return Err(Fault::OutputLength);
    }
    Ok(())
}

pub fn write_bitmap(width: u32, height: u32, picture: &[u8], out: &mut [u8]) -> Result<(), Fault>
    ensures { BitmapSays width height picture.now out.old out.new (fault_of result) }
{
    let (w, h) = (width as usize, height as usize);
    check(
        width,
        height,
        picture.len(),
        h * ((w + 7) / 8),
        out.len(),
        picture.len(),
    )?;
    let rows = put_head(out, b"P4\n", width, height);
    put_rows(out, rows, picture, w, h);
    Ok(())
}

pub fn write_heights(width: u32, height: u32, picture: &[u16], out: &mut [u8]) -> Result<(), Fault>
    ensures { HeightsSay width height picture.now out.old out.new (fault_of result) }
{
    let (w, h) = (width as usize, height as usize);
    check(
        width,
        height,
        picture.len(),
        w * h,
        out.len(),
        6 + 2 * picture.len(),
    )?;
    let top = put_head(out, b"P5\n", width, height);
    let rows = put(out, top, b"65535\n");
    put_heights(out, rows, picture);
    Ok(())
}
