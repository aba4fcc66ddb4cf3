// The program: a grid record and a tape on standard input, the file on standard output and the count on descriptor 2,
// or the refusal on standard output. The count comes last, and only behind a whole picture: who reads it knows that
// none was cut.
#![tactic(auto)]

use program::{LINE, OUTPUT, draw_layer, input_room};

fn main() {
    let mut input = input_room();
    // A read that fails ends the input.
    let size = io::read_full(0, &mut input);
    let mut out = [0u8; OUTPUT];
    let mut line = [0u8; LINE];
    let said = draw_layer(&input[..size], &mut out, &mut line);
    let first = said.length;
    let second = said.line;
    if io::write_all(1, &out[..first]) {
        io::write_all(2, &line[..second]);
    }
}
