// The solid drawing by tiles with slopes: the checks, the drawing without slopes, and then the slopes of its pixels, in the
// buffers of the levels that the drawing has left. The arrays are the call's own and as long as any tape needs.
#![tactic(auto)]

ghost use Rattle.std.specs.Prelude.{true, ◌≡◌, length};
ghost use Rattle.rules.specs.Tapes.{clause_limit};
ghost use Rattle.picture.specs.Shapes.{grid_in};
ghost use Rattle.answers.specs.Lines.{DrawsSlopes};
ghost use Rattle.answers.specs.Says.{answer_of};
ghost use Rattle.promises.specs.Says.{SlopesSay};
ghost use Rattle.slope_drawing.specs.Sloped.{SlopesOf};

use answers::Answer;
use answers::lines::check_slopes;
use code::unpack::unpack_words;
use faults::Refusal;
use picture::bits::clear;
use picture::grid::Grid;
use slope_blocks::sixteens::shade;
use solid_tiles::tiles::tile_solid;
use tape::CLAUSE_LIMIT;

// The walk of the tape's words and then their slopes, in buffers that are lent.
fn slope_words(
    tape: &[u8],
    grid: Grid,
    picture: &mut [u16],
    slopes: &mut [i32],
    work: &mut [u8],
    words: &mut [u64],
    first: &mut [u64],
    second: &mut [u64],
    third: &mut [u64],
) -> u64
    requires draws_slopes { DrawsSlopes tape.now (grid_in grid true) (length picture.old) (length slopes.old)
        (length work.old) }
    requires words_len { length words.old ≡ clause_limit }
    requires first_len { length first.old ≡ clause_limit }
    requires second_len { length second.old ≡ clause_limit }
    requires third_len { length third.old ≡ clause_limit }
    ensures { SlopesOf tape.now (grid_in grid true) picture.new slopes.new result }
{
    let n = unpack_words(tape, words);
    let count = tile_solid(&words[..n], grid, picture, work, first, second, third);
    shade(&words[..n], grid, picture, slopes, work, first, second);
    count
}

fn slope(tape: &[u8], grid: Grid, picture: &mut [u16], slopes: &mut [i32], work: &mut [u8]) -> u64
    requires { DrawsSlopes tape.now (grid_in grid true) (length picture.old) (length slopes.old)
        (length work.old) }
    ensures { SlopesOf tape.now (grid_in grid true) picture.new slopes.new result }
{
    let mut words = [0u64; CLAUSE_LIMIT];
    let mut first = [0u64; CLAUSE_LIMIT];
    let mut second = [0u64; CLAUSE_LIMIT];
    let mut third = [0u64; CLAUSE_LIMIT];
    slope_words(
        tape,
        grid,
        picture,
        slopes,
        work,
        &mut words,
        &mut first,
        &mut second,
        &mut third,
    )
}

fn checked(
    tape: &[u8],
    grid: Grid,
    picture: &mut [u16],
    slopes: &mut [i32],
    work: &mut [u8],
) -> Result<u64, Refusal>
    ensures { SlopesSay tape.now grid picture.old picture.new
        slopes.old slopes.new work.old work.new (answer_of result) }
{
    check_slopes(tape, grid, picture.len(), slopes.len(), work.len())?;
    let count = slope(tape, grid, picture, slopes, work);
    clear(work);
    Ok(count)
}

pub fn tile_slopes(
    tape: &[u8],
    grid: Grid,
    picture: &mut [u16],
    slopes: &mut [i32],
    work: &mut [u8],
) -> Answer
    ensures { SlopesSay tape.now grid picture.old picture.new
        slopes.old slopes.new work.old work.new result }
{
    Answer::of(checked(tape, grid, picture, slopes, work))
}
