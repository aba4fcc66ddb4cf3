// The swept picture of a recorded path: the checks, and then the drawing by tiles of the tape's words, in arrays of the
// call's own that are as long as any tape and any path need.
#![tactic(auto)]

ghost use Rattle.std.specs.Prelude.{◌≡◌, false, length};
ghost use Rattle.rules.specs.Tapes.{clause_limit};
ghost use Rattle.swept_rules.specs.Swept.{path_limit, swept_lines};
ghost use Rattle.picture.specs.Shapes.{grid_in};
ghost use Rattle.answers.specs.Says.{Checked, answer_of};
ghost use Rattle.promises.specs.Says.{SweptSays};
ghost use Rattle.swept_drawing.specs.Swept.{Sweeps, SweptOf};

use answers::Answer;
use answers::lines::{check_grid, check_length, check_work};
use code::unpack::unpack_words;
use faults::Refusal;
use picture::bits::clear;
use picture::grid::Grid;
use swept_path::path::check_path;
use swept_tiles::tiles::sweep;
use tape::CLAUSE_LIMIT;

// The most positions of a path.
const PATH_LIMIT: usize = 4096;

// Lines 1 to 11, 25, 12 and 13. On a grid that is refused 25 is not tested, which is defined over its samples.
fn check_swept(
    tape: &[u8],
    grid: Grid,
    path: &[i32],
    length: usize,
    work: usize,
) -> Result<(), Refusal>
    ensures { Checked
        (swept_lines tape.now (grid_in grid false) path.now length work) tape.now result }
{
    check_grid(false, tape, grid)?;
    check_path(grid, path)?;
    check_length(true, grid, length)?;
    check_work(work)?;
    Ok(())
}

// The tiles of the tape's words, in buffers that are lent.
fn sweep_words(
    tape: &[u8],
    grid: Grid,
    path: &[i32],
    picture: &mut [u16],
    work: &mut [u8],
    words: &mut [u64],
    first: &mut [u64],
    second: &mut [u64],
    outer: &mut [u16],
    inner: &mut [u16],
)
    requires sweeps { Sweeps tape.now grid path.now picture.old work.old }
    requires words_len { length words.old ≡ clause_limit }
    requires first_len { length first.old ≡ clause_limit }
    requires second_len { length second.old ≡ clause_limit }
    requires outer_len { length outer.old ≡ path_limit }
    requires inner_len { length inner.old ≡ path_limit }
    ensures { SweptOf tape.now grid path.now picture.new }
{
    let n = unpack_words(tape, words);
    sweep(
        &words[..n],
        grid,
        path,
        outer,
        inner,
        picture,
        work,
        first,
        second,
    );
}

fn sweep_tape(tape: &[u8], grid: Grid, path: &[i32], picture: &mut [u16], work: &mut [u8])
    requires { Sweeps tape.now grid path.now picture.old work.old }
    ensures { SweptOf tape.now grid path.now picture.new }
{
    let mut words = [0u64; CLAUSE_LIMIT];
    let mut first = [0u64; CLAUSE_LIMIT];
    let mut second = [0u64; CLAUSE_LIMIT];
    let mut outer = [0u16; PATH_LIMIT];
    let mut inner = [0u16; PATH_LIMIT];
    sweep_words(
        tape,
        grid,
        path,
        picture,
        work,
        &mut words,
        &mut first,
        &mut second,
        &mut outer,
        &mut inner,
    );
}

// No clauses are counted.
fn sweep_checked(
    tape: &[u8],
    grid: Grid,
    path: &[i32],
    picture: &mut [u16],
    work: &mut [u8],
) -> Result<u64, Refusal>
    ensures { SweptSays tape.now grid path.now picture.old picture.new
        work.old work.new (answer_of result) }
{
    check_swept(tape, grid, path, picture.len(), work.len())?;
    sweep_tape(tape, grid, path, picture, work);
    clear(work);
    Ok(0)
}

pub fn tile_swept(
    tape: &[u8],
    grid: Grid,
    path: &[i32],
    picture: &mut [u16],
    work: &mut [u8],
) -> Answer
    ensures { SweptSays tape.now grid path.now picture.old picture.new
        work.old work.new result }
{
    Answer::of(sweep_checked(tape, grid, path, picture, work))
}
