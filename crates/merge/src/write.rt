// The merged tape's bytes: the head, the clauses of both tapes, and the minimum of their results.
ghost use Rattle.std.specs.Prelude.{◌≡◌, [], ◌∷◌, map, ◌+◌, ◌*◌, ◌≤◌, ◌<◌, length};
ghost use Rattle.std.proofs.lemmas.List.Edits.{sets};
ghost use Rattle.rules.specs.Tapes.{last_out, clause_bytes, read_tape};
ghost use Rattle.merge_rules.specs.Merging.{raised as raised_by, minimum_of, merged_bytes};
ghost use Rattle.merge.specs.Copies.{Counted, Copyable, Writable};

use crate::raise::raised;
use tape::bytes::{byte_at, fields_in};
use tape::write::{put_clause, put_head};
use tape::{CLAUSE_BYTES, Fields, HEAD_BYTES};
use tape_check::Counts;

// The clauses of an accepted tape, each used slot raised, stored from `at` on.
fn copy_clauses(tape: &[u8], count: u32, by: u32, out: &mut [u8], at: usize)
    requires { Copyable tape.now count by at out.old }
    ensures { out.new
        ≡ sets out.old at (clause_bytes (map (raised_by by) (read_tape tape.now).tape.clauses)) }
{
    for i in 0..count {
        let f = fields_in(tape, HEAD_BYTES + CLAUSE_BYTES * i as usize);
        put_clause(out, at + CLAUSE_BYTES * i as usize, raised(f, by));
    }
}

// The result slot of an accepted tape: the out of its last clause.
fn result_slot(tape: &[u8], count: u32) -> u32
    requires { Counted tape.now count }
    ensures { (result ≡ last_out (read_tape tape.now).tape.clauses) × (result < 128) }
{
    byte_at(tape, CLAUSE_BYTES * count as usize + 1)
}

fn put_minimum(out: &mut [u8], at: usize, first: u32, second: u32)
    requires at_bound { at + 10 ≤ length out.old }
    requires first_bound { (first < 256) × (second < 256) }
    ensures { out.new ≡ sets out.old at (clause_bytes (minimum_of first second ∷ [])) }
{
    put_clause(
        out,
        at,
        Fields {
            opcode: 12,
            out: first as i32,
            left: first as i32,
            right: second as i32,
            constant: 0,
        },
    )
}

pub fn write_merged(first: &[u8], one: Counts, second: &[u8], two: Counts, out: &mut [u8])
    requires { Writable first.now one second.now two out.old }
    ensures { out.new ≡ merged_bytes first.now second.now }
{
    let by = one.slots;
    let both = one.clauses + two.clauses;
    put_head(out, by + two.slots, both + 1);
    copy_clauses(first, one.clauses, 0, out, HEAD_BYTES);
    copy_clauses(
        second,
        two.clauses,
        by,
        out,
        HEAD_BYTES + CLAUSE_BYTES * one.clauses as usize,
    );
    let left = result_slot(first, one.clauses);
    let right = result_slot(second, two.clauses) + by;
    put_minimum(out, HEAD_BYTES + CLAUSE_BYTES * both as usize, left, right)
}
