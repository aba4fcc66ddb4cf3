// Where an entry stands, and its bytes written.
ghost use Rattle.std.specs.Prelude.{◌≡◌, ◌∷◌, ◌+◌, ◌<◌, ◌≤◌, length, get_or};
ghost use Rattle.table_rules.specs.Tables.{tile_limit, entry_at, entry_length, mark_room, padded};
ghost use Rattle.verdict_entries.specs.Entries.{over};

use picture::bits::clear;
use verdicts::{ENTRY_LENGTH, HEAD_LENGTH};

pub fn entry_at(tile: u32) -> usize
    requires { tile < tile_limit }
    ensures { result ≡ entry_at tile }
{
    HEAD_LENGTH + ENTRY_LENGTH * tile as usize
}

// The bytes of an entry: the verdict, those of the marks, and zeros behind them.
fn fill_entry(entry: &mut [u8], verdict: u8, marks: &[u8])
    requires entry_len { length entry.old ≡ entry_length }
    requires marks_fit { length marks.now ≤ mark_room }
    ensures { entry.new ≡ verdict ∷ padded marks.now }
{
    clear(entry);
    entry[0] = verdict;
    entry[1..1 + marks.len()].copy_from_slice(marks)
}

// The whole entry is written.
pub fn put_entry(table: &mut [u8], at: usize, verdict: u8, marks: &[u8])
    requires entry_in_table { at + entry_length ≤ length table.old }
    requires marks_fit { length marks.now ≤ mark_room }
    ensures { table.new ≡ over at (verdict ∷ padded marks.now) table.old }
{
    fill_entry(&mut table[at..at + ENTRY_LENGTH], verdict, marks)
}
