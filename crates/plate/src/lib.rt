// Parts come and go on the plate: the checks, the tiles that the part touches drawn afresh, and last the memory. A refused
// call writes nothing.
#![tactic(auto)]

ghost use Rattle.std.specs.Prelude.{◌≡◌, false};
ghost use Rattle.picture.specs.Shapes.{grid_in};
ghost use Rattle.answers.specs.Says.{answer_of};
ghost use Rattle.plate_rules.specs.Plate.{place_at, tape_in, part_in, afresh, redrawn, stored, zeros};
ghost use Rattle.plate_drawing.specs.Afresh.{ForChange};
ghost use Rattle.promises.specs.Plates.{AddSays, RemoveSays};

use answers::Answer;
use faults::Refusal;
use picture::bits::clear;
use picture::grid::Grid;
use plate_checks::{check_free, check_lent, check_memory, check_taken};
use plate_drawing::{Change, draw_change};
use plate_places::{PLACE_SIZE, empty_place, store_tape, tape_end};
use tape_check::check_tape;

fn add_part(
    memory: &mut [u8],
    place: u32,
    tape: &[u8],
    grid: Grid,
    picture: &mut [u8],
    work: &mut [u8],
) -> Result<u64, Refusal>
    ensures { AddSays place tape.now grid memory.old memory.new
        picture.old picture.new work.old work.new (answer_of result) }
{
    check_memory(memory)?;
    check_free(memory, place)?;
    check_tape(tape)?;
    check_lent(grid, picture.len(), work.len())?;
    let at = place as usize;
    draw_change(memory, at, tape, Change::Added, grid, picture, work);
    store_tape(memory, at, tape);
    clear(work);
    Ok(0)
}

pub fn plate_add(
    memory: &mut [u8],
    place: u32,
    tape: &[u8],
    grid: Grid,
    picture: &mut [u8],
    work: &mut [u8],
) -> Answer
    ensures { AddSays place tape.now grid memory.old memory.new
        picture.old picture.new work.old work.new result }
{
    Answer::of(add_part(memory, place, tape, grid, picture, work))
}

// The picture without the part of a place, which is read from the memory itself.
fn draw_removed(memory: &[u8], place: usize, grid: Grid, picture: &mut [u8], work: &mut [u8])
    requires { ForChange memory.now place (tape_in (place_at place memory.now)) grid picture.old work.old }
    ensures { picture.new ≡ redrawn (part_in (place_at place memory.now)) (grid_in grid false)
        (afresh (stored place zeros memory.now) (grid_in grid false)) picture.old }
{
    let start = place * PLACE_SIZE;
    let part = &memory[start..start + PLACE_SIZE];
    let end = tape_end(part);
    draw_change(
        memory,
        place,
        &part[..end],
        Change::Removed,
        grid,
        picture,
        work,
    )
}

fn remove_part(
    memory: &mut [u8],
    place: u32,
    grid: Grid,
    picture: &mut [u8],
    work: &mut [u8],
) -> Result<u64, Refusal>
    ensures { RemoveSays place grid memory.old memory.new
        picture.old picture.new work.old work.new (answer_of result) }
{
    check_memory(memory)?;
    check_taken(memory, place)?;
    check_lent(grid, picture.len(), work.len())?;
    let at = place as usize;
    draw_removed(memory, at, grid, picture, work);
    empty_place(memory, at);
    clear(work);
    Ok(0)
}

pub fn plate_remove(
    memory: &mut [u8],
    place: u32,
    grid: Grid,
    picture: &mut [u8],
    work: &mut [u8],
) -> Answer
    ensures { RemoveSays place grid memory.old memory.new
        picture.old picture.new work.old work.new result }
{
    Answer::of(remove_part(memory, place, grid, picture, work))
}
