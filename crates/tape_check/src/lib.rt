// Refusals 1 to 9: what is wrong with a lent tape or list, and where. Nothing is written.
#![tactic(auto)]

pub mod clause;

ghost use Rattle.std.specs.Prelude.{◌≡◌, ◌+◌, ◌*◌, ◌≤◌, ◌<◌, ℕ, List, length, drop};
ghost use Rattle.rules.specs.Tapes.{Raw, counts_ok, head_counts, raws_of, read_clauses, read_list};
ghost use Rattle.rules.specs.Tapes.{head_ok, raw_in, raws_from, read_tape};
ghost use Rattle.tape.specs.Clauses.{raw_of};
ghost use Rattle.tape_check.specs.Checks.{Answers, Limited, Reads};

use clause::check_clause;
use faults::{Fault, Refusal};
use slotset::SlotSet;
use tape::bytes::{byte_at, fields_in, has_mark, word_at};
use tape::edition::{edition_of, is_edition};
use tape::list::fields_of;
use tape::{CLAUSE_BYTES, CLAUSE_LIMIT, CLAUSE_NUMBERS, Fields, HEAD_BYTES, SLOT_LIMIT};

// The counts of an accepted tape or list.
#[derive(Clone, Copy)]
pub struct Counts {
    pub slots: u32,
    pub clauses: u32,
}

fn counts_ok(slots: u32, clauses: usize) -> bool
    ensures { result ≡ counts_ok slots clauses }
{
    (1 <= slots) & (slots as usize <= SLOT_LIMIT) & (1 <= clauses) & (clauses <= CLAUSE_LIMIT)
}

// Refusals 5 to 9, clause by clause, of the clauses that `clause_at` reads.
fn check_clauses<C: Fn(u32) -> Fields>(counts: Counts, clause_at: C) -> Result<Counts, Refusal>
    requires limited { Limited counts }
    requires readable { (i : ℕ) → i < counts.clauses → C.pre clause_at i }
    ensures { (raws : List Raw) → Reads (C.post clause_at) counts.clauses raws
        → Answers result (read_clauses counts.slots raws) }
{
    let mut written = SlotSet::new();
    for i in 0..counts.clauses {
        let fields = clause_at(i);
        check_clause(counts.slots, &written, fields).map_err(|fault| Refusal { fault, place: i })?;
        written.insert(fields.out as u32);
    }
    Ok(counts)
}

// Refusals 4, 3, then 5 to 9 clause by clause, of a lent list.
pub fn check_list(slots: u32, list: &[i32]) -> Result<Counts, Refusal>
    ensures { Answers result (read_list slots list.now) }
{
    if list.len() % CLAUSE_NUMBERS != 0 {
        return Err(Fault::WrongLength.into());
    }
    let count = list.len() / CLAUSE_NUMBERS;
    if !counts_ok(slots, count) {
        return Err(Fault::WrongCounts.into());
    }
    let counts = Counts {
        slots,
        clauses: count as u32,
    };
    check_clauses(counts, |i| fields_of(list, CLAUSE_NUMBERS * i as usize))
}

fn head_ok(s: &[u8]) -> bool
    requires { 8 ≤ length s.now }
    ensures { result ≡ head_ok s.now }
{
    has_mark(s, 0, b"TP") & is_edition(s[2]) & (s[6] == 0) & (s[7] == 0)
}

// Line 3 of a head: its counts, and its edition, which is that of the counts.
fn head_counts(edition: u8, slots: u32, clauses: u32) -> bool
    ensures { result ≡ head_counts edition slots clauses }
{
    counts_ok(slots, clauses as usize) & (edition == edition_of(slots, clauses))
}

// Refusals 1 to 4, then 5 to 9 clause by clause, of a lent tape.
pub fn check_tape(tape: &[u8]) -> Result<Counts, Refusal>
    ensures { Answers result (read_tape tape.now) }
{
    if tape.len() < HEAD_BYTES {
        return Err(Fault::ShortTape.into());
    }
    if !head_ok(tape) {
        return Err(Fault::WrongHead.into());
    }
    let counts = Counts {
        slots: byte_at(tape, 3),
        clauses: word_at(tape, 4),
    };
    if !head_counts(tape[2], counts.slots, counts.clauses) {
        return Err(Fault::WrongCounts.into());
    }
    if tape.len() != HEAD_BYTES + CLAUSE_BYTES * counts.clauses as usize {
        return Err(Fault::WrongLength.into());
    }
    check_clauses(
        counts,
        |i| fields_in(tape, HEAD_BYTES + CLAUSE_BYTES * i as usize),
    )
}
