// The lines of the plate's calls besides the tape's: 14 and the places, 22, and 10 to 13.
#![tactic(auto)]

ghost use Rattle.std.specs.Prelude.{◌≡◌, false, not, ◌<◌, length};
ghost use Rattle.rules.specs.Values.{when};
ghost use Rattle.picture.specs.Shapes.{grid_in};
ghost use Rattle.plate_rules.specs.Plate.{places, plate_size, place_at, all_zero, is_free, is_taken};
ghost use Rattle.faults.specs.Numbers.{fault_of};
ghost use Rattle.answers.specs.Says.{answer_in};
ghost use Rattle.plate_checks.specs.Checks.{MemoryChecked, lent_fault};

use answers::lines::{check_length, check_work};
use faults::{Fault, Refusal};
use picture::grid::{Grid, check_axes};
use plate_places::{PLACE_SIZE, PLACES, all_zero, check_places};

const PLATE_SIZE: usize = 524288;

// Line 14, and then the lowest place that is at fault.
pub fn check_memory(memory: &[u8]) -> Result<(), Refusal>
    ensures { MemoryChecked memory.now (answer_in result) }
{
    if memory.len() != PLATE_SIZE {
        return Err(Fault::OutputLength.into());
    }
    check_places(memory)
}

fn is_empty(memory: &[u8], place: usize) -> bool
    requires memory_len { length memory.now ≡ plate_size }
    requires place_in_memory { place < places }
    ensures { result ≡ all_zero (place_at place memory.now) }
{
    let start = place * PLACE_SIZE;
    all_zero(&memory[start..start + PLACE_SIZE])
}

// Line 22 of adding: the place is to be empty. One function of this and the next would take a flag, the answer that is wanted.
pub fn check_free(memory: &[u8], place: u32) -> Result<(), Fault>
    requires { length memory.now ≡ plate_size }
    ensures { fault_of result ≡ when (not (is_free place memory.now)) 22 }
{
    let at = place as usize;
    if PLACES <= at {
        return Err(Fault::WrongPlace);
    }
    if is_empty(memory, at) {
        return Ok(());
    }
    Err(Fault::WrongPlace)
}

// Line 22 of removing: the place is to be taken.
pub fn check_taken(memory: &[u8], place: u32) -> Result<(), Fault>
    requires { length memory.now ≡ plate_size }
    ensures { fault_of result ≡ when (not (is_taken place memory.now)) 22 }
{
    let at = place as usize;
    if PLACES <= at {
        return Err(Fault::WrongPlace);
    }
    if is_empty(memory, at) {
        return Err(Fault::WrongPlace);
    }
    Ok(())
}

// Lines 10 to 13, of a picture and a work buffer of these lengths.
pub fn check_lent(grid: Grid, length: usize, work: usize) -> Result<(), Fault>
    ensures { fault_of result ≡ lent_fault (grid_in grid false) length work }
{
    check_axes(false, grid)?;
    check_length(false, grid, length)?;
    check_work(work)
}
