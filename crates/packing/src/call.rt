// The public calls: the answer of one that counts nothing.
ghost use Rattle.promises.specs.Says.{PackSays, UnpackSays};

use crate::{pack, unpack};
use answers::Answer;
use promises::Listed;

pub fn pack_tape(slots: u32, list: &[i32], out: &mut [u8]) -> Answer
    ensures { PackSays slots list.now out.old out.new result }
{
    Answer::of(pack(slots, list, out).map(|_| 0))
}

pub fn unpack_tape(tape: &[u8], out: &mut [i32]) -> Listed
    ensures { UnpackSays tape.now out.old out.new result }
{
    let unpacked = unpack(tape, out);
    Listed {
        answer: Answer::of(unpacked.map(|_| 0)),
        slots: unpacked.unwrap_or(0),
    }
}
