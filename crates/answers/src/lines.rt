// The lines of a drawing. Those of tapes and grids are tested where these are read, lines 12 and 13 here, of the lengths
// of what is lent. Lengths alone are read, so flat and solid have one function.
ghost use Rattle.std.specs.Prelude.{◌≡◌, true};
ghost use Rattle.rules.specs.Pictures.{picture_size};
ghost use Rattle.picture.specs.Shapes.{grid_in};
ghost use Rattle.answers.specs.Lines.{length_fault, slope_fault, work_fault};
ghost use Rattle.answers.specs.Lines.{grid_lines, draw_lines, tile_lines, slope_lines};
ghost use Rattle.answers.specs.Says.{Checked};
ghost use Rattle.faults.specs.Numbers.{fault_of};

use faults::{Fault, Refusal};
use picture::grid::{Grid, check_axes};
use tape_check::check_tape;

// The least length of a work buffer.
pub const WORK_LIMIT: usize = 32768;

// `solid` is the flag of the rules: `picture_size` and the lists of lines speak of both kinds at once.
fn picture_length(solid: bool, grid: Grid) -> usize
    ensures { result ≡ picture_size solid (grid_in grid solid) }
{
    let width = grid.width as usize;
    let height = grid.height as usize;
    if solid {
        return width * height;
    }
    height * ((width + 7) / 8)
}

// Line 12, of a picture of some length. A refused grid has its own line before this one.
pub fn check_length(solid: bool, grid: Grid, length: usize) -> Result<(), Fault>
    ensures { fault_of result ≡ length_fault solid (grid_in grid solid) length }
{
    if length != picture_length(solid, grid) {
        return Err(Fault::PictureLength);
    }
    Ok(())
}

// Line 12, of slopes of some length, three a pixel. Three times a refused grid's pixels can leave 64 bits, so the
// length is divided.
pub fn check_slope_length(grid: Grid, length: usize) -> Result<(), Fault>
    ensures { fault_of result ≡ slope_fault (grid_in grid true) length }
{
    if length % 3 == 0 {
        return check_length(true, grid, length / 3);
    }
    Err(Fault::PictureLength)
}

// Line 13, of a work buffer of some length.
pub fn check_work(length: usize) -> Result<(), Fault>
    ensures { fault_of result ≡ work_fault length }
{
    if length < WORK_LIMIT {
        return Err(Fault::ShortWork);
    }
    Ok(())
}

// Lines 1 to 11. The place is the tape's own, 0 where it is accepted.
pub fn check_grid(solid: bool, tape: &[u8], grid: Grid) -> Result<(), Refusal>
    ensures { Checked (grid_lines solid tape.now (grid_in grid solid)) tape.now result }
{
    check_tape(tape)?;
    check_axes(solid, grid)?;
    Ok(())
}

// Lines 1 to 12, of a full drawing with a picture of some length.
pub fn check_full(solid: bool, tape: &[u8], grid: Grid, length: usize) -> Result<(), Refusal>
    ensures { Checked (draw_lines solid tape.now (grid_in grid solid) length) tape.now result }
{
    check_grid(solid, tape, grid)?;
    check_length(solid, grid, length)?;
    Ok(())
}

// Lines 1 to 13, of a drawing by tiles with a work buffer of some length.
pub fn check_tiles(
    solid: bool,
    tape: &[u8],
    grid: Grid,
    length: usize,
    work: usize,
) -> Result<(), Refusal>
    ensures { Checked (tile_lines solid tape.now (grid_in grid solid) length work) tape.now result }
{
    check_full(solid, tape, grid, length)?;
    check_work(work)?;
    Ok(())
}

// The same with slopes of some length: their line 12 is behind the picture's.
pub fn check_slopes(
    tape: &[u8],
    grid: Grid,
    length: usize,
    slopes: usize,
    work: usize,
) -> Result<(), Refusal>
    ensures { Checked (slope_lines tape.now (grid_in grid true) length slopes work) tape.now result }
{
    check_full(true, tape, grid, length)?;
    check_slope_length(grid, slopes)?;
    check_work(work)?;
    Ok(())
}
