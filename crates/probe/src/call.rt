// The public calls: a probe at a point, and the same for callers without enums. Nothing is lent to be written.
ghost use Rattle.promises.specs.Says.{ProbeSays, SidedSays};

use crate::probe_at;
use crate::side::{side_number, side_value};
use answers::Answer;
use promises::{Point, Probe, Probed, Sided};

pub fn probe(tape: &[u8], point: Point) -> Probed
    ensures { ProbeSays tape.now point result }
{
    let found = probe_at(tape, point);
    Probed {
        answer: Answer::of(found.map(|_| 0)),
        probe: found.unwrap_or(Probe::Refused),
    }
}

pub fn probe_side(tape: &[u8], point: Point) -> Sided
    ensures { SidedSays tape.now point result }
{
    let probed = probe(tape, point);
    Sided {
        answer: probed.answer,
        side: side_number(probed.probe),
        value: side_value(probed.probe),
    }
}
