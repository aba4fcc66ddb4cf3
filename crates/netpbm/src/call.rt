// The public calls: the answer of one that reads no tape and counts nothing.
ghost use Rattle.std.specs.Prelude.{◌≡◌};
ghost use Rattle.promises.specs.Says.{BitmapSays, HeightsSay};
ghost use Rattle.faults.specs.Numbers.{fault_of};

use crate::file;
use answers::Answer;
use faults::Fault;

fn answer(outcome: Result<(), Fault>) -> Answer
    ensures { result ≡ record { number = fault_of outcome; place = 0; count = 0 } }
{
    match outcome {
        Ok(()) => Answer::of(Ok(0)),
        Err(fault) => Answer::of(Err(fault.into())),
    }
}

pub fn write_bitmap(width: u32, height: u32, picture: &[u8], out: &mut [u8]) -> Answer
    ensures { BitmapSays width height picture.now out.old out.new result }
{
    answer(file::write_bitmap(width, height, picture, out))
}

pub fn write_heights(width: u32, height: u32, picture: &[u16], out: &mut [u8]) -> Answer
    ensures { HeightsSay width height picture.now out.old out.new result }
{
    answer(file::write_heights(width, height, picture, out))
}
