// The public call: the answer of one that reads no tape and counts nothing.
ghost use Rattle.promises.specs.Says.{TextAnswered};

use crate::read_text;
use answers::Answer;

pub fn read_text(text: &[u8], out: &mut [u8]) -> Answer
    ensures { TextAnswered text.now out.old out.new result }
{
    match read_text::read_text(text, out) {
        Ok(()) => Answer::of(Ok(0)),
        Err(fault) => Answer::of(Err(fault.into())),
    }
}
