// The lines of both calls.
ghost use Rattle.std.specs.Prelude.{◌≡◌, not, ◌&&◌, ◌+◌, eqb, leb};
ghost use Rattle.faults.specs.Numbers.{fault_of};
ghost use Rattle.rules.specs.Values.{when};
ghost use Rattle.rules.specs.Tapes.{read_tape};
ghost use Rattle.order_rules.specs.Orders.{across};
ghost use Rattle.table_rules.specs.Tables.{table_length, rectangle_ok, table_fault, begin_lines};
ghost use Rattle.table_rules.specs.Tables.{own_lines, draw_lines};
ghost use Rattle.rectangle.specs.Rectangles.{rectangle_in};
ghost use Rattle.answers.specs.Says.{Checked};
ghost use Rattle.promises.specs.Tables.{table_grid};

use answers::lines::{check_grid, check_length, check_work};
use faults::{Fault, Refusal};
use picture::grid::{Grid, check_axes};
use rectangle::{Rectangle, tiles_along};
use tape_check::check_tape;
use verdicts::{TABLE_LENGTH, check_table};

// Line 24 of a table's length.
fn check_size(length: usize) -> Result<(), Fault>
    ensures { fault_of result ≡ when (not (eqb length table_length)) 24 }
{
    if length != TABLE_LENGTH {
        return Err(Fault::WrongTable);
    }
    Ok(())
}

// Whether a rectangle has tiles on an axis of some samples, and only such.
fn span_ok(first: u32, count: u32, samples: u32) -> bool
    ensures { result ≡ (leb 1 count && leb (first + count) (across samples)) }
{
    1 <= count && first as usize + count as usize <= tiles_along(samples)
}

fn rectangle_ok(grid: Grid, rectangle: Rectangle) -> bool
    ensures { result ≡ rectangle_ok (table_grid grid) (rectangle_in rectangle) }
{
    span_ok(rectangle.column, rectangle.columns, grid.width)
        && span_ok(rectangle.row, rectangle.rows, grid.height)
}

// Line 10 of a rectangle: it is empty, or it leaves the grid.
fn check_rectangle(grid: Grid, rectangle: Rectangle) -> Result<(), Fault>
    ensures { fault_of result
        ≡ when (not (rectangle_ok (table_grid grid) (rectangle_in rectangle))) 10 }
{
    if !rectangle_ok(grid, rectangle) {
        return Err(Fault::WrongSize);
    }
    Ok(())
}

// Lines 1 to 11, and 24 for a table of some length.
pub fn check_begin(tape: &[u8], grid: Grid, length: usize) -> Result<(), Refusal>
    ensures { Checked (begin_lines tape.now (table_grid grid) length) tape.now result }
{
    check_grid(false, tape, grid)?;
    check_size(length)?;
    Ok(())
}

// Lines 1 to 11: a rectangle's 10 stands before the grid's two.
fn check_own(tape: &[u8], grid: Grid, rectangle: Rectangle) -> Result<(), Refusal>
    ensures { Checked (own_lines tape.now (table_grid grid) (rectangle_in rectangle)) tape.now result }
{
    check_tape(tape)?;
    check_rectangle(grid, rectangle)?;
    check_axes(false, grid)?;
    Ok(())
}

// Line 24 of a table, of a tape that is accepted.
fn check_verdicts(tape: &[u8], grid: Grid, table: &[u8]) -> Result<(), Fault>
    requires { (read_tape tape.now).number ≡ 0 }
    ensures { fault_of result ≡ table_fault tape.now (table_grid grid) table.now }
{
    if !check_table(tape, grid, table) {
        return Err(Fault::WrongTable);
    }
    Ok(())
}

// Lines 1 to 11, 24, 12 and 13, with a picture and a work buffer of some length. The table is tested only with a tape
// that holds: its kept tapes are read with it.
pub fn check_draw(
    tape: &[u8],
    grid: Grid,
    rectangle: Rectangle,
    table: &[u8],
    length: usize,
    work: usize,
) -> Result<(), Refusal>
    ensures { Checked (draw_lines tape.now (table_grid grid) (rectangle_in rectangle)
        table.now length work) tape.now result }
{
    check_own(tape, grid, rectangle)?;
    check_verdicts(tape, grid, table)?;
    check_length(false, grid, length)?;
    check_work(work)?;
    Ok(())
}
