// The program's own buffers. Those that stay inside tell their length alone, so that no proof meets thousands of zeros.
ghost use Rattle.std.specs.Prelude.{◌≡◌, length, replicate};
ghost use Rattle.rules.specs.Drawings.{work_limit};
ghost use Rattle.program_rules.specs.Program.{input_limit};

use crate::INPUT;
use answers::lines::WORK_LIMIT;

// The pixels of the largest solid, 128 by 128.
const HEIGHTS: usize = 16384;

// Room for as much of an input as decides what becomes of it.
pub fn input_room() -> [u8; INPUT]
    ensures { result ≡ replicate input_limit 0 }
{
    [0; INPUT]
}

// A work buffer. The largest flat picture, 512 rows of 64 bytes, is just as long.
pub fn zero_bytes() -> [u8; WORK_LIMIT]
    ensures { work_limit ≡ length result }
{
    [0; WORK_LIMIT]
}

pub fn zero_heights() -> [u16; HEIGHTS]
    ensures { 16384 ≡ length result }
{
    [0; HEIGHTS]
}
