// The table of verdicts that layer writer and preview share: begun, and checked before anything is drawn from it.
#![tactic(auto)]

mod entries;
mod head;
pub mod verdict;

ghost use Rattle.std.specs.Prelude.{◌≡◌, false, length};
ghost use Rattle.rules.specs.Tapes.{read_tape};
ghost use Rattle.picture.specs.Shapes.{grid_in};
ghost use Rattle.table_rules.specs.Tables.{table_length, flat_grid, begun, table_ok};

use entries::entries_ok;
use head::{same_head, write_head};
use picture::bits::clear;
use picture::grid::Grid;

// The tape and the zeros behind it, these with the grid record, an entry, how many there are, and all of it, in bytes.
pub const TAPE_ROOM: usize = 65536;

pub const HEAD_LENGTH: usize = 65568;

pub const ENTRY_LENGTH: usize = 1537;

pub const TILE_LIMIT: usize = 64;

pub const TABLE_LENGTH: usize = 163936;

// Every tile becomes unknown.
pub fn begin(tape: &[u8], grid: Grid, table: &mut [u8])
    requires tape_value { (read_tape tape.now).number ≡ 0 }
    requires table_len { length table.old ≡ table_length }
    ensures { table.new ≡ begun tape.now (flat_grid (grid_in grid false)) }
{
    write_head(&mut table[..HEAD_LENGTH], tape, grid);
    clear(&mut table[HEAD_LENGTH..])
}

// The condition of 24: its length, its head, the verdicts and the kept tapes.
pub fn check_table(tape: &[u8], grid: Grid, table: &[u8]) -> bool
    requires { (read_tape tape.now).number ≡ 0 }
    ensures { result ≡ table_ok tape.now (flat_grid (grid_in grid false)) table.now }
{
    table.len() == TABLE_LENGTH && same_head(tape, grid, table) && entries_ok(tape, table)
}
