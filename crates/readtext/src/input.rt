// Reading the input by single reads: io::read_full takes a read that fails for the end.
ghost use Rattle.std.specs.Prelude.{◌≤◌, length};
ghost use Rattle.std.specs.Io.KnownBytes.{IsAtEnd};
ghost use Rattle.readtext.specs.Says.{bytes_in, BeginsAt, IfWhole};

use std::io::Read;

// What was read: all of the input, or a part of it.
#[derive(Clone, Copy)]
pub enum Input<'a> {
    Whole(&'a [u8]),
    Part(&'a [u8]),
}

// Reads until the input ends, a read fails or there is no more room. Only an input that has ended is whole. The size is
// what the reads gave, so that nothing is counted by hand. A length alone would leave open which bytes are answered: they
// begin where the room begins, so that they are the front of it.
pub fn read_input<'a, R: Read>(from: &mut R, room: &'a mut [u8]) -> Input<'a>
    ensures in_bounds { length (bytes_in result) ≤ length room.old }
    ensures front { BeginsAt result room.entry }
    ensures whole { IfWhole result (IsAtEnd (R.remaining from.new)) }
{
    let mut size = 0;
    while size < room.len() {
        match from.read(&mut room[size..]) {
            Ok(0) => return Input::Whole(&room[..size]),
            Ok(more) => size += more,
            Err(_) => return Input::Part(&room[..size]),
        }
    }
    Input::Part(room)
}
