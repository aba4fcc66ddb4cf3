// What the program answers, on bytes alone.
ghost use Rattle.readtext.specs.Says.{answered, first_of, Said, Spoken, bytes_in, is_whole};

use crate::input::Input;
use formula::read_text::read_text;
use netpbm::append::put;
use program::LINE;
use program::lines::{put_count, put_refused};
use tape::bytes::word_at;

// The longest tape of a text: a head and 1,024 clauses.
pub const TAPE: usize = 10248;

// The longest text: one byte less than there is room for.
const TEXT: usize = 65535;

// The lengths of what goes to descriptors 1 and 2.
#[derive(Clone, Copy)]
pub struct Lengths {
    pub first: usize,
    pub second: usize,
}

// The length of what is written to the front of `out`: the tape, as long as its head says, or the line of the refusal.
fn tape_of(text: &[u8], out: &mut [u8; TAPE]) -> usize
    ensures { Said (answered text.now) out.old out.new result }
{
    match read_text(text, out) {
        Ok(()) => 8 + 10 * (word_at(out, 4) as usize),
        Err(fault) => put_refused(out, fault.number(), 0),
    }
}

// The same of what was read: nothing if that is not the whole text.
fn put_first(input: Input, out: &mut [u8; TAPE]) -> usize
    ensures { Said (first_of (bytes_in input.entry) (is_whole input.entry)) out.old out.new result }
{
    let (Input::Whole(text) | Input::Part(text)) = input;
    if text.len() > TEXT {
        return put(out, 0, b"text above 65,535 bytes\n");
    }
    match input {
        Input::Whole(text) => tape_of(text, out),
        Input::Part(_) => 0,
    }
}

// The last word is the length of what goes before it.
pub fn answer(input: Input, out: &mut [u8; TAPE], line: &mut [u8; LINE]) -> Lengths
    ensures { Spoken (bytes_in input.entry) (is_whole input.entry) out.old out.new line.old
        line.new result }
{
    let first = put_first(input, out);
    if first == 0 {
        return Lengths { first, second: 0 };
    }
    Lengths {
        first,
        second: put_count(line, first as u64),
    }
}
