// A clause with its used slots raised, as the second tape's clauses stand in the merged one.
ghost use Rattle.std.specs.Prelude.{◌≡◌, true, ◌+◌, ◌≤◌, pos};
ghost use Rattle.rules.specs.Values.{pick};
ghost use Rattle.rules.specs.Tapes.{slot_limit, is_slot, nat};
ghost use Rattle.tape.specs.Clauses.{raw_of};
ghost use Rattle.merge.specs.Copies.{InSlots, RaisedTo};

use tape::Fields;
use tape_check::clause::{uses_left, uses_right};

// One slot field: a slot where the opcode uses it, 0 where it does not.
fn raised_field(used: bool, field: i32, by: u32) -> i32
    requires field_value { is_slot slot_limit field ≡ true }
    requires by_le_slot_limit { by ≤ slot_limit }
    ensures { result ≡ pos (pick used (nat field + by) (nat field)) }
{
    if used {
        return (field as u32 + by) as i32;
    }
    field
}

pub fn raised(f: Fields, by: u32) -> Fields
    requires in_slots { InSlots (raw_of f) }
    requires by_le_slot_limit { by ≤ slot_limit }
    ensures { RaisedTo by (raw_of f) (raw_of result) }
{
    Fields {
        opcode: f.opcode,
        out: raised_field(true, f.out, by),
        left: raised_field(uses_left(f.opcode), f.left, by),
        right: raised_field(uses_right(f.opcode), f.right, by),
        constant: f.constant,
    }
}
