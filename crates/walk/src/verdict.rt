// The verdict on a range.
ghost use Rattle.fixed.specs.Shapes.{range_in};
ghost use Rattle.walk.specs.Verdicts.{Judged};

use fixed::span::Span;

// Material everywhere; nowhere; or neither is certain.
#[derive(Clone, Copy)]
pub enum Verdict {
    Full,
    Empty,
    Mixed,
}

pub fn verdict_on(range: Span) -> Verdict
    ensures { Judged (range_in range) result }
{
    if range.high < 0 {
        return Verdict::Full;
    }
    if range.low < 0 {
        return Verdict::Mixed;
    }
    Verdict::Empty
}
