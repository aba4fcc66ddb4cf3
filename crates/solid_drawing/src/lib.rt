// The solid drawing, in full and by tiles: the checks, and then the drawing of the tape's words, in arrays of the call's own
// that are as long as any tape needs. Why flat drawings have a form of their own is said in their crate.
#![tactic(auto)]

ghost use Rattle.std.specs.Prelude.{true, ◌≡◌, length};
ghost use Rattle.rules.specs.Tapes.{clause_limit};
ghost use Rattle.picture.specs.Shapes.{grid_in};
ghost use Rattle.answers.specs.Lines.{Draws, DrawsByTiles};
ghost use Rattle.answers.specs.Says.{answer_of};
ghost use Rattle.promises.specs.Says.{FullSays, TilesSay};
ghost use Rattle.drawings.specs.Drawn.{FullOf, TilesOf};

use answers::Answer;
use answers::lines::{check_full, check_tiles};
use code::unpack::unpack_words;
use faults::Refusal;
use picture::bits::clear;
use picture::grid::Grid;
use tape::CLAUSE_LIMIT;

fn draw(tape: &[u8], grid: Grid, picture: &mut [u16]) -> u64
    requires { Draws true tape.now (grid_in grid true) (length picture.old) }
    ensures { FullOf true tape.now (grid_in grid true) picture.new result }
{
    let mut words = [0u64; CLAUSE_LIMIT];
    let n = unpack_words(tape, &mut words);
    full_drawing::solid::draw_solid(&words[..n], grid, picture)
}

fn full(tape: &[u8], grid: Grid, picture: &mut [u16]) -> Result<u64, Refusal>
    ensures { FullSays true tape.now grid picture.old picture.new (answer_of result) }
{
    check_full(true, tape, grid, picture.len())?;
    Ok(draw(tape, grid, picture))
}

pub fn draw_solid(tape: &[u8], grid: Grid, picture: &mut [u16]) -> Answer
    ensures { FullSays true tape.now grid picture.old picture.new result }
{
    Answer::of(full(tape, grid, picture))
}

// The walk of the tape's words, in buffers that are lent: for the words, and for those of each level.
fn tile_words(
    tape: &[u8],
    grid: Grid,
    picture: &mut [u16],
    work: &mut [u8],
    words: &mut [u64],
    first: &mut [u64],
    second: &mut [u64],
    third: &mut [u64],
) -> u64
    requires draws_by_tiles { DrawsByTiles true tape.now (grid_in grid true) (length picture.old) (length work.old) }
    requires words_len { length words.old ≡ clause_limit }
    requires first_len { length first.old ≡ clause_limit }
    requires second_len { length second.old ≡ clause_limit }
    requires third_len { length third.old ≡ clause_limit }
    ensures { TilesOf true tape.now (grid_in grid true) picture.new result }
{
    let n = unpack_words(tape, words);
    solid_tiles::tiles::tile_solid(&words[..n], grid, picture, work, first, second, third)
}

fn tile(tape: &[u8], grid: Grid, picture: &mut [u16], work: &mut [u8]) -> u64
    requires { DrawsByTiles true tape.now (grid_in grid true) (length picture.old) (length work.old) }
    ensures { TilesOf true tape.now (grid_in grid true) picture.new result }
{
    let mut words = [0u64; CLAUSE_LIMIT];
    let mut first = [0u64; CLAUSE_LIMIT];
    let mut second = [0u64; CLAUSE_LIMIT];
    let mut third = [0u64; CLAUSE_LIMIT];
    tile_words(
        tape,
        grid,
        picture,
        work,
        &mut words,
        &mut first,
        &mut second,
        &mut third,
    )
}

// For callers that go on: the clauses counted, or why it is refused.
pub fn by_tiles(
    tape: &[u8],
    grid: Grid,
    picture: &mut [u16],
    work: &mut [u8],
) -> Result<u64, Refusal>
    ensures { TilesSay true tape.now grid picture.old picture.new
        work.old work.new (answer_of result) }
{
    check_tiles(true, tape, grid, picture.len(), work.len())?;
    let count = tile(tape, grid, picture, work);
    clear(work);
    Ok(count)
}

pub fn tile_solid(tape: &[u8], grid: Grid, picture: &mut [u16], work: &mut [u8]) -> Answer
    ensures { TilesSay true tape.now grid picture.old picture.new
        work.old work.new result }
{
    Answer::of(by_tiles(tape, grid, picture, work))
}
