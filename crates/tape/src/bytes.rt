// A tape's bytes, read: little-endian numbers, marks, and the clause at a place.
ghost use Rattle.std.specs.Prelude.{◌≡◌, ◌+◌, ◌≤◌, ◌<◌, length, get_or, drop};
ghost use Rattle.rules.specs.Tapes.{word, signed4, raw_in};
ghost use Rattle.tape.specs.Clauses.{raw_of, marked};

use crate::Fields;

pub fn byte_at(s: &[u8], at: usize) -> u32
    requires { at < length s.now }
    ensures { (result ≡ get_or s.now at 0) × (result < 256) }
{
    s[at] as u32
}

pub fn word_at(s: &[u8], at: usize) -> u32
    requires { at + 2 ≤ length s.now }
    ensures { (result ≡ word at s.now) × (result < 65536) }
{
    u32::from(u16::from_le_bytes([s[at], s[at + 1]]))
}

pub fn constant_at(s: &[u8], at: usize) -> i32
    requires { at + 4 ≤ length s.now }
    ensures { result ≡ signed4 at s.now }
{
    i32::from_le_bytes([s[at], s[at + 1], s[at + 2], s[at + 3]])
}

pub fn has_mark(s: &[u8], at: usize, mark: &[u8; 2]) -> bool
    requires { at + 2 ≤ length s.now }
    ensures { result ≡ marked at s.now mark.now }
{
    (s[at] == mark[0]) & (s[at + 1] == mark[1])
}

pub fn opcode_at(s: &[u8], at: usize) -> i32
    requires { at + 3 ≤ length s.now }
    ensures { result ≡ (raw_in (drop at s.now)).opcode }
{
    if has_mark(s, at, b"CL") {
        return byte_at(s, at + 2) as i32;
    }
    255
}

// The clause whose ten bytes start at `at`; a broken mark is read as an opcode out of range.
pub fn fields_in(s: &[u8], at: usize) -> Fields
    requires { at + 10 ≤ length s.now }
    ensures { raw_of result ≡ raw_in (drop at s.now) }
{
    Fields {
        opcode: opcode_at(s, at),
        out: byte_at(s, at + 3) as i32,
        left: byte_at(s, at + 4) as i32,
        right: byte_at(s, at + 5) as i32,
        constant: constant_at(s, at + 6),
    }
}
