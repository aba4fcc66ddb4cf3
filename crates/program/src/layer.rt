// The drawing of an input: the record's own checks, then flat or solid.
ghost use Rattle.std.specs.Prelude.{◌≡◌, length};
ghost use Rattle.program.specs.Says.{output_length, InputSays};

use crate::Drawn;
use crate::flat::flat_file;
use crate::record::{RECORD_LENGTH, read_grid, record_ok, too_large};
use crate::solid::solid_file;
use faults::{Fault, Refusal};

pub fn layer_file(input: &[u8], out: &mut [u8]) -> Result<Drawn, Refusal>
    requires { length out.old ≡ output_length }
    ensures { InputSays input.now out.old out.new result }
{
    if !record_ok(input) {
        return Err(Fault::ProgramInput.into());
    }
    let grid = read_grid(input);
    if too_large(grid) {
        return Err(Fault::SolidTooWide.into());
    }
    let tape = &input[RECORD_LENGTH..];
    if grid.depth < 1 {
        return flat_file(tape, grid, out);
    }
    solid_file(tape, grid, out)
}
