// The program: a formula's text on standard input, its tape on standard output, or the refusal as a line; and on
// descriptor 2 the length of that. The length comes last, and only behind the whole: who reads it knows that nothing was
// cut. Nothing is written if the text could not be read to its end.
#![tactic(auto)]

mod answer;
mod input;

use answer::{TAPE, answer};
use input::read_input;
use program::LINE;

fn main(rt: HostRuntime) {
    let mut room = io::large_buffer();
    let input = read_input(&mut rt.stdin(), &mut room);
    let mut out = [0u8; TAPE];
    let mut line = [0u8; LINE];
    let said = answer(input, &mut out, &mut line);
    if io::write_all(1, &out[..said.first]) {
        io::write_all(2, &line[..said.second]);
    }
}
