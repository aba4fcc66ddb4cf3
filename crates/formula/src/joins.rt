// The joins: the operation of the join at a place, if one stands there. Two tables of two rows each: one function
// over both would be told the bytes and the operations of a row, and say nothing itself.
ghost use Rattle.formula.specs.Joins.{PlusAt, TimesAt};

use crate::steps::Binary;
use crate::text::peek;

pub fn plus_at(text: &[u8], at: usize) -> Option<Binary>
    ensures { PlusAt text.now at result }
{
    match peek(text, at) {
        Some(b'+') => Some(Binary::Add),
        Some(b'-') => Some(Binary::Subtract),
        _ => None,
    }
}

pub fn times_at(text: &[u8], at: usize) -> Option<Binary>
    ensures { TimesAt text.now at result }
{
    match peek(text, at) {
        Some(b'*') => Some(Binary::Multiply),
        Some(b'/') => Some(Binary::Divide),
        _ => None,
    }
}
