// The solid drawing by tiles in an order of the caller's own: the checks, and then the walk of the tape's words, in arrays
// of the call's own that are as long as any tape needs.
#![tactic(auto)]

mod list;
mod tiles;

ghost use Rattle.std.specs.Prelude.{true, ◌≡◌, length};
ghost use Rattle.rules.specs.Tapes.{clause_limit};
ghost use Rattle.order_rules.specs.Orders.{order_lines};
ghost use Rattle.picture.specs.Shapes.{grid_in};
ghost use Rattle.answers.specs.Says.{Checked, answer_of};
ghost use Rattle.promises.specs.Says.{OrderSays};
ghost use Rattle.order_drawing.specs.InOrder.{DrawsInOrder, OrderOf};

use answers::Answer;
use answers::lines::{check_full, check_work};
use code::unpack::unpack_words;
use faults::Refusal;
use list::{check_list, tile_count};
use picture::bits::clear;
use picture::grid::Grid;
use tape::CLAUSE_LIMIT;
use tiles::tile_in_order;

// Lines 1 to 13. The list is tested only on a grid that holds: the number of tiles of a refused one can leave 64 bits.
fn check_order(
    tape: &[u8],
    grid: Grid,
    order: &[u16],
    length: usize,
    work: usize,
) -> Result<(), Refusal>
    ensures { Checked (order_lines tape.now (grid_in grid true) order.now length work) tape.now
        result }
{
    check_full(true, tape, grid, length)?;
    check_list(tile_count(grid), order)?;
    check_work(work)?;
    Ok(())
}

// The walk of the tape's words, in buffers that are lent: for the words, and for those of each level.
fn tile_words(
    tape: &[u8],
    grid: Grid,
    order: &[u16],
    picture: &mut [u16],
    work: &mut [u8],
    words: &mut [u64],
    first: &mut [u64],
    second: &mut [u64],
    third: &mut [u64],
) -> u64
    requires draws_in_order { DrawsInOrder tape.now (grid_in grid true) order.now (length picture.old) (length work.old) }
    requires words_len { length words.old ≡ clause_limit }
    requires first_len { length first.old ≡ clause_limit }
    requires second_len { length second.old ≡ clause_limit }
    requires third_len { length third.old ≡ clause_limit }
    ensures { OrderOf order.now tape.now (grid_in grid true) picture.new result }
{
    let n = unpack_words(tape, words);
    tile_in_order(
        &words[..n],
        grid,
        order,
        picture,
        work,
        first,
        second,
        third,
    )
}

fn tile(tape: &[u8], grid: Grid, order: &[u16], picture: &mut [u16], work: &mut [u8]) -> u64
    requires { DrawsInOrder tape.now (grid_in grid true) order.now (length picture.old) (length work.old) }
    ensures { OrderOf order.now tape.now (grid_in grid true) picture.new result }
{
    let mut words = [0u64; CLAUSE_LIMIT];
    let mut first = [0u64; CLAUSE_LIMIT];
    let mut second = [0u64; CLAUSE_LIMIT];
    let mut third = [0u64; CLAUSE_LIMIT];
    tile_words(
        tape,
        grid,
        order,
        picture,
        work,
        &mut words,
        &mut first,
        &mut second,
        &mut third,
    )
}

fn tile_checked(
    tape: &[u8],
    grid: Grid,
    order: &[u16],
    picture: &mut [u16],
    work: &mut [u8],
) -> Result<u64, Refusal>
    ensures { OrderSays tape.now grid order.now picture.old
        picture.new work.old work.new (answer_of result) }
{
    check_order(tape, grid, order, picture.len(), work.len())?;
    let count = tile(tape, grid, order, picture, work);
    clear(work);
    Ok(count)
}

pub fn tile_solid_in_order(
    tape: &[u8],
    grid: Grid,
    order: &[u16],
    picture: &mut [u16],
    work: &mut [u8],
) -> Answer
    ensures { OrderSays tape.now grid order.now picture.old
        picture.new work.old work.new result }
{
    Answer::of(tile_checked(tape, grid, order, picture, work))
}
