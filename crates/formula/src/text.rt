// A text's bytes one at a time, its spaces, and where it breaks the rules.
ghost use Rattle.std.specs.Prelude.{◌≡◌, ◌≤◌, eqb, length};
ghost use Rattle.std.specs.List.{prefix_len};
ghost use Rattle.formula_rules.specs.FormulaCalls.{Blank};
ghost use Rattle.formula.specs.Bytes.{IsByteAt, Expected};

use faults::Fault;

// Where the text breaks the rules, and where a bracket opens too deep.
#[derive(Clone, Copy)]
pub enum Stop {
    Breaks(usize),
    Deep(usize),
}

impl From<Stop> for Fault {
    ghost use Rattle.faults.specs.Numbers.{number_of};
    ghost use Rattle.promises.specs.Faults.{answer_fault};
    ghost use Rattle.formula.specs.Heads.{answer_of};

    ghost from_gives = { λ stop fault. number_of fault ≡ answer_fault (answer_of stop) };

    fn from(stop: Stop) -> Fault {
        match stop {
            Stop::Breaks(_) => Fault::WrongFormula,
            Stop::Deep(_) => Fault::DeepBracket,
        }
    }
}

// The byte at a place, if the text goes on to there.
pub fn peek(text: &[u8], at: usize) -> Option<u8>
    ensures { IsByteAt text.now at result }
{
    text.get(at).copied()
}

// The place after a byte that must stand there.
pub fn expect(text: &[u8], at: usize, byte: u8) -> Result<usize, Stop>
    ensures { Expected text.now at byte result }
{
    if peek(text, at) == Some(byte) {
        Ok(at + 1)
    } else {
        Err(Stop::Breaks(at))
    }
}

// How many spaces a text begins with.
fn spaces(text: &[u8]) -> usize
    ensures { result ≡ prefix_len (λ b. eqb b 32) text.now }
{
    text.iter().take_while(|b| **b == b' ').count()
}

// Where the spaces from `from` on end.
pub fn skip(text: &[u8], from: usize) -> usize
    requires { from ≤ length text.now }
    ensures { Blank text.now from result }
{
    from + spaces(&text[from..])
}
