// The program's decision, on bytes alone: an input in, and what goes to descriptors 1 and 2 out.
#![tactic(auto)]

mod buffers;
mod flat;
mod layer;
pub mod lines;
mod record;
mod solid;

ghost use Rattle.program.specs.Says.{ProgramSays};

use answers::Answer;
pub use buffers::input_room;
use layer::layer_file;
use lines::{put_count, put_refused};

// How much of an input there is to read: one byte more than the longest that can be drawn, 32 of a record and 61,448 of
// a tape. What is behind it changes nothing.
pub const INPUT: usize = 61481;

// Room for the longest file: a solid of 128 by 128 pixels has a head of 17 bytes and two bytes a pixel.
pub const OUTPUT: usize = 32785;

// Room for the longest count, of 20 digits, and a newline.
pub const LINE: usize = 21;

// The clauses that a drawing counted, and the length of its file.
#[derive(Clone, Copy)]
pub struct Drawn {
    pub count: u64,
    pub length: usize,
}

// The answer, with the lengths of what goes to descriptor 1, file or refusal, and to descriptor 2.
#[derive(Clone, Copy)]
pub struct Said {
    pub answer: Answer,
    pub length: usize,
    pub line: usize,
}

pub fn draw_layer(input: &[u8], out: &mut [u8; OUTPUT], line: &mut [u8; LINE]) -> Said
    ensures { ProgramSays input.now out.old out.new line.old
        line.new result }
{
    match layer_file(input, out) {
        Ok(drawn) => Said {
            answer: Answer::of(Ok(drawn.count)),
            length: drawn.length,
            line: put_count(line, drawn.count),
        },
        Err(refusal) => Said {
            answer: Answer::of(Err(refusal)),
            length: put_refused(out, refusal.fault.number(), refusal.place),
            line: 0,
        },
    }
}
