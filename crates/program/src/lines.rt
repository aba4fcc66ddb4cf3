// The two lines of text: what is refused, and the count. Each part's bytes are those that the contract names, in its
// order: write! would need a writer over the buffer, and say no more.
ghost use Rattle.std.specs.Prelude.{◌+◌, ◌≤◌, length};
ghost use Rattle.program_rules.specs.Program.{count_line, refused_line};
ghost use Rattle.netpbm.specs.Appending.{Appends};

use netpbm::append::put;
use netpbm::decimal::put_number;

// A number and a newline.
fn put_line(out: &mut [u8], at: usize, v: u64) -> usize
    requires { at + 21 ≤ length out.old }
    ensures { Appends out.old at (count_line v) out.new result × (result ≤ at + 21) }
{
    let end = put_number(out, at, v);
    put(out, end, b"\n")
}

pub fn put_count(line: &mut [u8], count: u64) -> usize
    requires { 21 ≤ length line.old }
    ensures { Appends line.old 0 (count_line count) line.new result × (result ≤ 21) }
{
    put_line(line, 0, count)
}

pub fn put_refused(out: &mut [u8], number: u8, place: u32) -> usize
    requires { 53 ≤ length out.old }
    ensures { Appends out.old 0 (refused_line number place) out.new result × (result ≤ 53) }
{
    let after_word = put(out, 0, b"refused ");
    let after_number = put_number(out, after_word, u64::from(number));
    let after_at = put(out, after_number, b" at ");
    put_line(out, after_at, u64::from(place))
}
