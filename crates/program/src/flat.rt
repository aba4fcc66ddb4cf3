// The file of a flat drawing. The one of a solid has another type of picture, other lengths, another drawing and another
// writer: one function for both would take each of these as a parameter, and share two lines.
ghost use Rattle.std.specs.Prelude.{◌≡◌, false, length};
ghost use Rattle.program.specs.Says.{output_length, PictureFits, FileSays};

use crate::Drawn;
use crate::buffers::zero_bytes;
use faults::Refusal;
use flat_drawing::by_tiles;
use netpbm::call::write_bitmap;
use netpbm::file::file_length;
use picture::bits::stride;
use picture::grid::{Grid, check_axes};

// The length of the picture. A refused grid has none; the drawing says so, after the tape's own checks.
fn picture_length(grid: Grid) -> usize
    ensures { PictureFits false grid 32768 result }
{
    match check_axes(false, grid) {
        Ok(()) => grid.height as usize * stride(grid.width as usize),
        Err(_) => 0,
    }
}

pub fn flat_file(tape: &[u8], grid: Grid, out: &mut [u8]) -> Result<Drawn, Refusal>
    requires { length out.old ≡ output_length }
    ensures { FileSays false tape.now grid out.old out.new result }
{
    let mut picture = zero_bytes();
    let mut work = zero_bytes();
    let size = picture_length(grid);
    let count = by_tiles(tape, grid, &mut picture[..size], &mut work)?;
    let length = file_length(grid.width, grid.height, size);
    write_bitmap(
        grid.width,
        grid.height,
        &picture[..size],
        &mut out[..length],
    );
    Ok(Drawn { count, length })
}
