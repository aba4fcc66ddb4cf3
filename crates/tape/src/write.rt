// A tape's bytes, written: marks, little-endian numbers, the head, a clause. Each call stores a run of bytes from `at`
// on and leaves every other byte.
ghost use Rattle.std.specs.Prelude.{◌≡◌, true, [], ◌∷◌, ◌+◌, ◌≤◌, ◌<◌, length};
ghost use Rattle.std.proofs.lemmas.List.Edits.{sets};
ghost use Rattle.rules.specs.Tapes.{nat, is_slot, two, four, head_bytes, clause_of, clause_bytes};
ghost use Rattle.tape.specs.Clauses.{mark_of, raw_of, InBytes};

use crate::Fields;
use crate::edition::edition_of;

pub fn put_pair(out: &mut [u8], at: usize, first: u8, second: u8)
    requires { at + 2 ≤ length out.old }
    ensures { out.new ≡ sets out.old at (first ∷ (second ∷ [])) }
{
    out[at] = first;
    out[at + 1] = second;
}

pub fn put_mark(out: &mut [u8], at: usize, mark: &[u8; 2])
    requires { at + 2 ≤ length out.old }
    ensures { out.new ≡ sets out.old at (mark_of mark.now) }
{
    put_pair(out, at, mark[0], mark[1])
}

// The two lower bytes of a number, the lowest first.
pub fn put_word(out: &mut [u8], at: usize, v: u32)
    requires { at + 2 ≤ length out.old }
    ensures { out.new ≡ sets out.old at (two v) }
{
    let bytes = v.to_le_bytes();
    put_pair(out, at, bytes[0], bytes[1])
}

pub fn put_constant(out: &mut [u8], at: usize, v: i32)
    requires { at + 4 ≤ length out.old }
    ensures { out.new ≡ sets out.old at (four v) }
{
    let bits = v.cast_unsigned();
    put_word(out, at, bits);
    put_word(out, at + 2, bits / 65536)
}

pub fn put_head(out: &mut [u8], slots: u32, count: u32)
    requires { (8 ≤ length out.old) × (slots < 256) }
    ensures { out.new ≡ sets out.old 0 (head_bytes slots count) }
{
    let edition = edition_of(slots, count);
    put_mark(out, 0, b"TP");
    put_pair(out, 2, edition, slots as u8);
    put_word(out, 4, count);
    put_pair(out, 6, 0, 0)
}

fn byte_of(v: i32) -> u8
    requires { is_slot 256 v ≡ true }
    ensures { result ≡ nat v }
{
    v as u8
}

pub fn put_clause(out: &mut [u8], at: usize, f: Fields)
    requires at_in_bounds { at + 10 ≤ length out.old }
    requires in_bytes { InBytes (raw_of f) }
    ensures { out.new ≡ sets out.old at (clause_bytes (clause_of (raw_of f) ∷ [])) }
{
    let opcode = byte_of(f.opcode);
    let target = byte_of(f.out);
    let left = byte_of(f.left);
    let right = byte_of(f.right);
    put_mark(out, at, b"CL");
    put_pair(out, at + 2, opcode, target);
    put_pair(out, at + 4, left, right);
    put_constant(out, at + 6, f.constant)
}
