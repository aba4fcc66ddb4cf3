// The two calls with the table of verdicts that layer writer and preview share, each whole: beginning it, and drawing a
// rectangle of tiles with it.
#![tactic(auto)]

mod lines;

ghost use Rattle.answers.specs.Says.{answer_of};
ghost use Rattle.promises.specs.Tables.{BeginSays, DrawSays};

use answers::Answer;
use faults::Refusal;
use lines::{check_begin, check_draw};
use picture::bits::clear;
use picture::grid::Grid;
use rectangle::Rectangle;
use verdict_drawing::draw::draw_rectangle;
use verdicts::begin;

// It counts nothing.
fn begin_checked(tape: &[u8], grid: Grid, table: &mut [u8]) -> Result<u64, Refusal>
    ensures { BeginSays tape.now grid table.old table.new (answer_of result) }
{
    check_begin(tape, grid, table.len())?;
    begin(tape, grid, table);
    Ok(0)
}

pub fn table_begin(tape: &[u8], grid: Grid, table: &mut [u8]) -> Answer
    ensures { BeginSays tape.now grid table.old table.new result }
{
    Answer::of(begin_checked(tape, grid, table))
}

fn draw_checked(
    tape: &[u8],
    grid: Grid,
    rectangle: Rectangle,
    table: &mut [u8],
    picture: &mut [u8],
    work: &mut [u8],
) -> Result<u64, Refusal>
    ensures { DrawSays tape.now grid rectangle table.old table.new
        picture.old picture.new work.old work.new (answer_of result) }
{
    check_draw(tape, grid, rectangle, table, picture.len(), work.len())?;
    let count = draw_rectangle(tape, grid, rectangle, table, picture, work);
    clear(work);
    Ok(count)
}

pub fn table_draw(
    tape: &[u8],
    grid: Grid,
    rectangle: Rectangle,
    table: &mut [u8],
    picture: &mut [u8],
    work: &mut [u8],
) -> Answer
    ensures { DrawSays tape.now grid rectangle table.old table.new
        picture.old picture.new work.old work.new result }
{
    Answer::of(draw_checked(tape, grid, rectangle, table, picture, work))
}
