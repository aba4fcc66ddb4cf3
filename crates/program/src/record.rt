// The grid record before the tape: its checks 15 and 16, and its fields.
ghost use Rattle.std.specs.Prelude.{◌≡◌, true, ◌≤◌, length};
ghost use Rattle.program_rules.specs.Program.{record_length, record_ok, grid_record, too_large};
ghost use Rattle.picture.specs.Shapes.{grid_in};

use picture::grid::Grid;
use tape::bytes::{constant_at, has_mark, word_at};

pub const RECORD_LENGTH: usize = 32;

// The greatest width and height of a solid.
const SOLID_LIMIT: u32 = 128;

pub fn record_ok(input: &[u8]) -> bool
    ensures { result ≡ record_ok input.now }
{
    input.len() >= RECORD_LENGTH && has_mark(input, 0, b"GR")
}

// The grid, flat or solid: also a flat one has its third step here, which no drawing reads.
pub fn read_grid(input: &[u8]) -> Grid
    requires { record_length ≤ length input.now }
    ensures { grid_in result true ≡ grid_record input.now }
{
    Grid {
        width: word_at(input, 2),
        height: word_at(input, 4),
        depth: word_at(input, 6),
        xorigin: constant_at(input, 8),
        yorigin: constant_at(input, 12),
        zorigin: constant_at(input, 16),
        xstep: constant_at(input, 20),
        ystep: constant_at(input, 24),
        zstep: constant_at(input, 28),
    }
}

pub fn too_large(grid: Grid) -> bool
    ensures { result ≡ too_large (grid_in grid true) }
{
    grid.depth >= 1 && (grid.width > SOLID_LIMIT || grid.height > SOLID_LIMIT)
}
