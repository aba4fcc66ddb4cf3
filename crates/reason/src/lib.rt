// The reason for a pixel of a flat picture: the checks, and then the walk's way down to the pixel, in arrays of the call's
// own that are as long as any tape needs.
#![tactic(auto)]

mod lines;
pub mod stop;

ghost use Rattle.std.specs.Prelude.{false, ◌≡◌, length};
ghost use Rattle.rules.specs.Tapes.{clause_limit, read_tape};
ghost use Rattle.reason_rules.specs.Reasons.{reason_of};
ghost use Rattle.picture.specs.Shapes.{grid_in};
ghost use Rattle.promises.specs.Faults.{Explains};
ghost use Rattle.promises.specs.Says.{ReasonSays};
ghost use Rattle.reason.specs.Stops.{stop_in};

use answers::Answer;
use code::unpack::unpack_words;
use lines::check_pixel;
use picture::bits::clear;
use picture::grid::Grid;
use promises::Reason;
use stop::{Stop, from_tile};
use tape::CLAUSE_LIMIT;

// Buffers are lent: for the words, and for those of each level. Other calls have a function of this shape, each with its own
// walk, picture and levels: one for all would take the walk as a closure over all of these.
fn stop_words(
    tape: &[u8],
    grid: Grid,
    x: u32,
    y: u32,
    work: &mut [u8],
    words: &mut [u64],
    first: &mut [u64],
    second: &mut [u64],
) -> Stop
    requires explains { Explains tape.now (grid_in grid false) x y (length work.old) }
    requires words_len { length words.old ≡ clause_limit }
    requires first_len { length first.old ≡ clause_limit }
    requires second_len { length second.old ≡ clause_limit }
    ensures { stop_in result ≡ reason_of (read_tape tape.now).tape (grid_in grid false) x y }
{
    let n = unpack_words(tape, words);
    from_tile(&words[..n], grid, x, y, work, first, second)
}

fn find_stop(tape: &[u8], grid: Grid, x: u32, y: u32, work: &mut [u8]) -> Stop
    requires { Explains tape.now (grid_in grid false) x y (length work.old) }
    ensures { stop_in result ≡ reason_of (read_tape tape.now).tape (grid_in grid false) x y }
{
    let mut words = [0u64; CLAUSE_LIMIT];
    let mut first = [0u64; CLAUSE_LIMIT];
    let mut second = [0u64; CLAUSE_LIMIT];
    stop_words(tape, grid, x, y, work, &mut words, &mut first, &mut second)
}

pub fn explain_pixel(tape: &[u8], grid: Grid, x: u32, y: u32, work: &mut [u8]) -> Reason
    ensures { ReasonSays tape.now grid x y work.old work.new result }
{
    match check_pixel(tape, grid, x, y, work.len()) {
        Ok(()) => {
            let s = find_stop(tape, grid, x, y, work);
            clear(work);
            Reason {
                answer: Answer::of(Ok(0)),
                side: s.side,
                low: s.low,
                high: s.high,
                clauses: s.clauses,
            }
        }
        Err(refusal) => Reason {
            answer: refusal.into(),
            side: 0,
            low: 0,
            high: 0,
            clauses: 0,
        },
    }
}
