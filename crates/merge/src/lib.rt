// Two tapes into one. A refused call writes nothing, a done one every byte.
#![tactic(auto)]

mod raise;
mod write;

ghost use Rattle.std.specs.Prelude.{◌≡◌};
ghost use Rattle.faults.specs.Numbers.{fault_of};
ghost use Rattle.answers.specs.Says.{answer_of};
ghost use Rattle.promises.specs.Says.{MergeSays};
ghost use Rattle.merge.specs.Lines.{limit_line, length_line};

use answers::Answer;
use faults::{Fault, Refusal};
use tape::{CLAUSE_BYTES, CLAUSE_LIMIT, HEAD_BYTES, SLOT_LIMIT};
use tape_check::{Counts, check_tape};
use write::write_merged;

// Line 21: the clauses of the result, the minimum counted, and its slots.
fn check_limits(one: Counts, two: Counts) -> Result<(), Fault>
    ensures { fault_of result ≡ limit_line one.clauses two.clauses one.slots two.slots }
{
    let clauses = one.clauses as usize + two.clauses as usize + 1;
    let slots = one.slots as usize + two.slots as usize;
    if CLAUSE_LIMIT < clauses {
        return Err(Fault::MergedTooLong);
    }
    if SLOT_LIMIT < slots {
        return Err(Fault::MergedTooLong);
    }
    Ok(())
}

// Line 14, of an output of some length.
fn check_length(one: Counts, two: Counts, length: usize) -> Result<(), Fault>
    ensures { fault_of result ≡ length_line one.clauses two.clauses length }
{
    let clauses = one.clauses as usize + two.clauses as usize + 1;
    if length != HEAD_BYTES + CLAUSE_BYTES * clauses {
        return Err(Fault::OutputLength);
    }
    Ok(())
}

// Nothing is drawn, so nothing is counted. A clause at fault is of the tape that failed.
fn write_checked(first: &[u8], second: &[u8], out: &mut [u8]) -> Result<u64, Refusal>
    ensures { MergeSays first.now second.now out.old out.new (answer_of result) }
{
    let one = check_tape(first)?;
    let two = check_tape(second)?;
    check_limits(one, two)?;
    check_length(one, two, out.len())?;
    write_merged(first, one, second, two, out);
    Ok(0)
}

pub fn merge_tapes(first: &[u8], second: &[u8], out: &mut [u8]) -> Answer
    ensures { MergeSays first.now second.now out.old out.new result }
{
    Answer::of(write_checked(first, second, out))
}
