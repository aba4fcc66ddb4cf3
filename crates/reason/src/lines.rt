// The lines of a reason.
ghost use Rattle.std.specs.Prelude.{◌≡◌, false};
ghost use Rattle.picture.specs.Shapes.{grid_in};
ghost use Rattle.answers.specs.Says.{Checked};
ghost use Rattle.faults.specs.Numbers.{fault_of};
ghost use Rattle.promises.specs.Faults.{pixel_fault, reason_lines};

use answers::lines::{check_grid, check_work};
use faults::{Fault, Refusal};
use picture::grid::Grid;

// Line 23, of the pixel in column x and row y.
fn check_inside(grid: Grid, x: u32, y: u32) -> Result<(), Fault>
    ensures { fault_of result ≡ pixel_fault (grid_in grid false) x y }
{
    if x >= grid.width {
        return Err(Fault::PixelOutside);
    }
    if y >= grid.height {
        return Err(Fault::PixelOutside);
    }
    Ok(())
}

// Lines 1 to 11, 23 and 13, with a work buffer of some length.
pub fn check_pixel(tape: &[u8], grid: Grid, x: u32, y: u32, work: usize) -> Result<(), Refusal>
    ensures { Checked (reason_lines tape.now (grid_in grid false) x y work) tape.now result }
{
    check_grid(false, tape, grid)?;
    check_inside(grid, x, y)?;
    check_work(work)?;
    Ok(())
}
