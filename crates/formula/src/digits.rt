// Numbers: 1 to 5 digits, then a point and 1 to 4 digits if wished, in units rounded down.
ghost use Rattle.std.specs.Prelude.{◌≤◌, length};
ghost use Rattle.formula.specs.Bytes.{DigitAt, RanOut};
ghost use Rattle.formula.specs.Heads.{NumberAt};

use crate::text::{Stop, peek};

// "1 to 5 digits, whole part at most 32,767, then if wished a point and 1 to 4 digits".
const WHOLE_DIGITS: u32 = 5;

const WHOLE_LIMIT: u32 = 32767;

const DECIMALS: u32 = 4;

const DECIMAL_LIMIT: u32 = 9999;

const UNIT: u32 = 65536;

// Digits that were read: where they end, their value and how many they are.
#[derive(Clone, Copy)]
pub struct Run {
    pub at: usize,
    pub value: u32,
    pub count: u32,
}

// A number in units, and where it ends.
#[derive(Clone, Copy)]
pub struct Decimal {
    pub end: usize,
    pub units: u32,
}

fn digit(text: &[u8], at: usize) -> Option<u32>
    ensures { DigitAt text.now at result }
{
    match peek(text, at) {
        Some(b @ b'0'..=b'9') => Some(u32::from(b - b'0')),
        _ => None,
    }
}

// As many digits from `from` on as may stand there.
fn digits(text: &[u8], from: usize, most: u32, top: u32) -> Run
    requires { (from ≤ length text.now) × (top ≤ 32767) × (most ≤ 5) }
    ensures { RanOut text.now from most top result }
{
    let mut value = 0;
    for count in 0..most {
        let at = from + count as usize;
        let run = Run { at, value, count };
        let Some(more) = digit(text, at) else {
            return run;
        };
        value = 10 * value + more;
        if top < value {
            return run;
        }
    }
    Run {
        at: from + most as usize,
        value,
        count: most,
    }
}

// The number at `from`, if a digit stands there.
pub fn number(text: &[u8], from: usize) -> Result<Option<Decimal>, Stop>
    requires { from ≤ length text.now }
    ensures { NumberAt text.now from result }
{
    let whole = digits(text, from, WHOLE_DIGITS, WHOLE_LIMIT);
    if whole.count == 0 {
        return Ok(None);
    }
    let units = UNIT * whole.value;
    if peek(text, whole.at) != Some(b'.') {
        return Ok(Some(Decimal {
            end: whole.at,
            units,
        }));
    }
    let part = digits(text, whole.at + 1, DECIMALS, DECIMAL_LIMIT);
    if part.count == 0 {
        return Err(Stop::Breaks(whole.at + 1));
    }
    Ok(Some(Decimal {
        end: part.at,
        units: units + UNIT * part.value / 10_u32.pow(part.count),
    }))
}
