// The formula at a point: lines 1 to 9 and 20, then the full tape's value at the rounded point.
#![tactic(auto)]

pub mod call;
mod point;
mod side;

ghost use Rattle.std.specs.Prelude.{◌≡◌};
ghost use Rattle.rules.specs.Tapes.{read_tape, value_at};
ghost use Rattle.fixed.specs.Shapes.{sample_in};
ghost use Rattle.code.specs.Runs.{SampleOk};
ghost use Rattle.code.specs.Unpacking.{Unpackable};
ghost use Rattle.probe.specs.Answers.{Found};

use code::run::run_values;
use code::unpack::unpack_words;
use faults::Refusal;
use fixed::clause::Sample;
use point::{check_point, rounded_point};
use promises::{Point, Probe};
use side::side_of;
use tape::{CLAUSE_LIMIT, SLOT_LIMIT};
use tape_check::check_tape;

// The words are lent, so that a caller has as many as its tapes may have clauses.
fn run_in(tape: &[u8], s: Sample, words: &mut [u64]) -> i32
    requires unpackable { Unpackable tape.now words.old }
    requires sample_ok { SampleOk (sample_in s) }
    ensures { result ≡ value_at (read_tape tape.now).tape (sample_in s) }
{
    let n = unpack_words(tape, words);
    let mut slots = [0i32; SLOT_LIMIT];
    run_values(&words[..n], s, &mut slots)
}

fn run_tape(tape: &[u8], s: Sample) -> i32
    requires tape_value { (read_tape tape.now).number ≡ 0 }
    requires sample_ok { SampleOk (sample_in s) }
    ensures { result ≡ value_at (read_tape tape.now).tape (sample_in s) }
{
    let mut words = [0u64; CLAUSE_LIMIT];
    run_in(tape, s, &mut words)
}

pub fn probe_at(tape: &[u8], point: Point) -> Result<Probe, Refusal>
    ensures { Found tape.now point result }
{
    check_tape(tape)?;
    check_point(point)?;
    let value = run_tape(tape, rounded_point(point));
    Ok(side_of(value))
}
