// Packing a list into a tape's bytes and unpacking it again. A refused call writes nothing, a done one every element.
#![tactic(auto)]

pub mod call;

ghost use Rattle.std.specs.Prelude.{◌≡◌, true, OnOk};
ghost use Rattle.rules.specs.Tapes.{read_list, read_tape, all_in32};
ghost use Rattle.packing.specs.Packing.{bytes_of, numbers_of, Fills, Packs, Unpacks};

use faults::{Fault, Refusal};
use tape::bytes::fields_in;
use tape::list::{fields_of, put_numbers};
use tape::write::{put_clause, put_head};
use tape::{CLAUSE_BYTES, CLAUSE_NUMBERS, HEAD_BYTES};
use tape_check::{check_list, check_tape};

fn write_tape(slots: u32, list: &[i32], count: u32, out: &mut [u8])
    requires { Fills (read_list slots list.now) count (bytes_of slots list.now) out.old }
    ensures out_after { out.new ≡ bytes_of slots list.now }
    ensures list_value { all_in32 list.now ≡ true }
{
    put_head(out, slots, count);
    for i in 0..count {
        let f = fields_of(list, CLAUSE_NUMBERS * i as usize);
        put_clause(out, HEAD_BYTES + CLAUSE_BYTES * i as usize, f);
    }
}

// Refusals 4, 3, 5 to 9, 14, then the tape's bytes. The slot count is returned.
pub fn pack(slots: u32, list: &[i32], out: &mut [u8]) -> Result<u8, Refusal>
    ensures packs { Packs slots list.now out.old out.new result }
    ensures list_value { OnOk result (all_in32 list.now ≡ true) }
{
    let counts = check_list(slots, list)?;
    if out.len() != HEAD_BYTES + CLAUSE_BYTES * counts.clauses as usize {
        return Err(Fault::OutputLength.into());
    }
    write_tape(slots, list, counts.clauses, out);
    Ok(counts.slots as u8)
}

fn write_list(tape: &[u8], count: u32, out: &mut [i32])
    requires { Fills (read_tape tape.now) count (numbers_of tape.now) out.old }
    ensures { out.new ≡ numbers_of tape.now }
{
    for i in 0..count {
        let f = fields_in(tape, HEAD_BYTES + CLAUSE_BYTES * i as usize);
        put_numbers(out, CLAUSE_NUMBERS * i as usize, f);
    }
}

// Refusals 1 to 9, 14, then the list's numbers. The slot count is returned.
pub fn unpack(tape: &[u8], out: &mut [i32]) -> Result<u8, Refusal>
    ensures { Unpacks tape.now out.old out.new result }
{
    let counts = check_tape(tape)?;
    if out.len() != CLAUSE_NUMBERS * counts.clauses as usize {
        return Err(Fault::OutputLength.into());
    }
    write_list(tape, counts.clauses, out);
    Ok(counts.slots as u8)
}
