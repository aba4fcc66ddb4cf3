// What a call answers, and its checks: a call makes them in the paper's order, each refuses by its line of the scope
// paper's table, and the first that refuses ends the call.
#![tactic(auto)]

pub mod lines;

ghost use Rattle.std.specs.Prelude.{◌≡◌};

use faults::Refusal;

// The number of the paper's table, the clause at fault, and the clauses counted.
#[repr(C)]
#[derive(Clone, Copy)]
pub struct Answer {
    pub number: u8,
    pub place: u32,
    pub count: u64,
}

// A refused call counts nothing.
impl From<Refusal> for Answer {
    ghost use Rattle.answers.specs.Says.{refused};

    ghost from_gives = { λ refusal answer. answer ≡ refused refusal };

    fn from(refusal: Refusal) -> Answer {
        Answer {
            number: refusal.fault.number(),
            place: refusal.place,
            count: 0,
        }
    }
}

impl Answer {
    ghost use Rattle.answers.specs.Says.{answer_of};

    // The end of a call: the clauses counted, 0 where it draws no picture, or why it is refused.
    pub fn of(outcome: Result<u64, Refusal>) -> Answer
        ensures { result ≡ answer_of outcome }
    {
        match outcome {
            Ok(count) => Answer {
                number: 0,
                place: 0,
                count,
            },
            Err(refusal) => refusal.into(),
        }
    }
}
