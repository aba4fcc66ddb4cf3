// The two forms of a tape, its bytes and its list: a clause read from each and written to each.
#![tactic(auto)]

pub mod bytes;
pub mod edition;
pub mod list;
pub mod write;

// The limits of a tape, of one of edition 01, and the table of opcodes: the first that reads left, the first that reads
// right too, and the last.
pub const SLOT_LIMIT: usize = 128;

pub const CLAUSE_LIMIT: usize = 6144;

pub const FIRST_SLOTS: usize = 64;

pub const FIRST_CLAUSES: usize = 1024;

pub const FIRST_UNARY: i32 = 4;

pub const FIRST_BINARY: i32 = 9;

pub const LAST_OPCODE: i32 = 14;

// A tape's bytes: the head, with its edition, and each clause. A list's numbers to a clause.
pub const HEAD_BYTES: usize = 8;

pub const FIRST_EDITION: u8 = 1;

pub const SECOND_EDITION: u8 = 2;

pub const CLAUSE_BYTES: usize = 10;

pub const CLAUSE_NUMBERS: usize = 5;

// A clause as it is given: five signed numbers.
#[derive(Clone, Copy)]
pub struct Fields {
    pub opcode: i32,
    pub out: i32,
    pub left: i32,
    pub right: i32,
    pub constant: i32,
}
