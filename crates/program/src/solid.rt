// The file of a solid drawing, of at most 128 by 128 pixels.
ghost use Rattle.std.specs.Prelude.{◌≡◌, true, ◌≤◌, length};
ghost use Rattle.program_rules.specs.Program.{solid_limit};
ghost use Rattle.program.specs.Says.{output_length, PictureFits, FileSays};

use crate::Drawn;
use crate::buffers::{zero_bytes, zero_heights};
use faults::Refusal;
use netpbm::call::write_heights;
use netpbm::file::file_length;
use picture::grid::Grid;
use solid_drawing::by_tiles;

fn picture_length(grid: Grid) -> usize
    requires width_le_solid_limit { grid.width ≤ solid_limit }
    requires height_le_solid_limit { grid.height ≤ solid_limit }
    ensures { PictureFits true grid 16384 result }
{
    grid.width as usize * grid.height as usize
}

pub fn solid_file(tape: &[u8], grid: Grid, out: &mut [u8]) -> Result<Drawn, Refusal>
    requires width_le_solid_limit { grid.width ≤ solid_limit }
    requires height_le_solid_limit { grid.height ≤ solid_limit }
    requires out_len { length out.old ≡ output_length }
    ensures { FileSays true tape.now grid out.old out.new result }
{
    let mut picture = zero_heights();
    let mut work = zero_bytes();
    let size = picture_length(grid);
    let count = by_tiles(tape, grid, &mut picture[..size], &mut work)?;
    let length = file_length(grid.width, grid.height, 6 + 2 * size);
    write_heights(
        grid.width,
        grid.height,
        &picture[..size],
        &mut out[..length],
    );
    Ok(Drawn { count, length })
}
