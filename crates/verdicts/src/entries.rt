// The table's entries: each verdict is one of the four, and a tape that is kept would be accepted.
ghost use Rattle.std.specs.Prelude.{◌≡◌, ◌||◌, List, ℕ, ◌≤◌, leb, length};
ghost use Rattle.rules.specs.Tapes.{slot_limit, nat, read_tape};
ghost use Rattle.slotset.specs.SlotSets.{IsSet};
ghost use Rattle.tape.specs.Clauses.{raw_of};
ghost use Rattle.table_rules.specs.Tables.{entry_length, table_length, tile_limit, marks_in, is_choice, kept_ok, entry_ok};
ghost use Rattle.table_rules.specs.Tables.{entries_ok};
ghost use Rattle.verdicts.specs.Kept.{copy_raw, marked_raw, stands, ForEntry};

use crate::verdict::Verdict;
use crate::{ENTRY_LENGTH, HEAD_LENGTH, TILE_LIMIT};
use shortening::marks::{COPIES_LEFT, KEPT, mark_at};
use slotset::SlotSet;
use tape::bytes::{byte_at, fields_in, word_at};
use tape::{CLAUSE_BYTES, Fields, HEAD_BYTES};
use tape_check::clause::check_clause;

// A clause is read from bytes here, with any number for its opcode: `is_choice` of the rules is of numbers.
const MINIMUM: i32 = 12;

const MAXIMUM: i32 = 13;

const COPY: i32 = 4;

// A copy is of a side of a minimum or a maximum.
fn may_copy(opcode: i32, mark: u8) -> bool
    ensures { result ≡ (leb mark 1 || is_choice (nat opcode)) }
{
    mark <= KEPT || matches!(opcode, MINIMUM | MAXIMUM)
}

fn copy_of(out: i32, side: i32) -> Fields
    ensures { raw_of result ≡ copy_raw out side }
{
    Fields {
        opcode: COPY,
        out,
        left: side,
        right: 0,
        constant: 0,
    }
}

// A clause that is kept, as its mark says: as it is, or a copy of a side.
fn as_marked(f: Fields, mark: u8) -> Fields
    ensures { raw_of result ≡ marked_raw (raw_of f) mark }
{
    match mark {
        KEPT => f,
        COPIES_LEFT => copy_of(f.out, f.left),
        _ => copy_of(f.out, f.right),
    }
}

// Whether a clause that is kept may stand there, given the slots that earlier ones wrote.
fn clause_stands(slots: u32, written: &SlotSet, f: Fields, mark: u8) -> bool
    requires { slots ≤ slot_limit }
    ensures { (ns : List ℕ) → IsSet written.now ns → result ≡ stands slots ns (raw_of f) mark }
{
    may_copy(f.opcode, mark) && check_clause(slots, written, as_marked(f, mark)).is_ok()
}

// An empty tape is turned down, as a list of no clause is.
fn kept_clauses(slots: u32, count: u32, tape: &[u8], entry: &[u8]) -> bool
    requires { ForEntry tape.now entry.now slots count }
    ensures { result
        ≡ kept_ok (read_tape tape.now).tape
        (marks_in (read_tape tape.now).tape entry.now) }
{
    let mut written = SlotSet::new();
    let mut some = false;
    for i in 0..count as usize {
        let mark = mark_at(entry, 1, i);
        if 0 < mark {
            let f = fields_in(tape, HEAD_BYTES + CLAUSE_BYTES * i);
            if !clause_stands(slots, &written, f, mark) {
                return false;
            }
            written.insert(f.out as u32);
            some = true;
        }
    }
    some
}

fn entry_ok(tape: &[u8], entry: &[u8]) -> bool
    requires tape_value { (read_tape tape.now).number ≡ 0 }
    requires len { length entry.now ≡ entry_length }
    ensures { result ≡ entry_ok (read_tape tape.now).tape entry.now }
{
    let Ok(verdict) = Verdict::try_from(entry[0]) else {
        return false;
    };
    match verdict {
        Verdict::Kept => kept_clauses(byte_at(tape, 3), word_at(tape, 4), tape, entry),
        _ => true,
    }
}

// All of them are looked at, also those of tiles that the grid does not have.
pub fn entries_ok(tape: &[u8], table: &[u8]) -> bool
    requires tape_value { (read_tape tape.now).number ≡ 0 }
    requires table_len { length table.now ≡ table_length }
    ensures { result ≡ entries_ok tile_limit (read_tape tape.now).tape table.now }
{
    for i in 0..TILE_LIMIT {
        let at = HEAD_LENGTH + ENTRY_LENGTH * i;
        if !entry_ok(tape, &table[at..at + ENTRY_LENGTH]) {
            return false;
        }
    }
    true
}
