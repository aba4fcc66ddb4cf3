// Lines 5 to 9 of the refusals at one clause, as it is given in a list or in bytes.
ghost use Rattle.std.specs.Prelude.{◌≡◌, true, false, ◌&&◌, not, List, ℕ, ◌≤◌, eqb};
ghost use Rattle.rules.specs.Tapes.{slot_limit, uses_left, uses_right, is_slot, is_zero, is_opcode, least_word, nat, is_in};
ghost use Rattle.rules.specs.Tapes.{bad_slot, bad_unused, bad_constant, bad_read, clause_fault};
ghost use Rattle.faults.specs.Numbers.{fault_of};
ghost use Rattle.slotset.specs.SlotSets.{IsSet};
ghost use Rattle.tape.specs.Clauses.{raw_of};

use faults::Fault;
use slotset::SlotSet;
use tape::{FIRST_BINARY, FIRST_UNARY, Fields, LAST_OPCODE};

pub fn uses_left(opcode: i32) -> bool
    ensures { result ≡ uses_left (nat opcode) }
{
    FIRST_UNARY <= opcode
}

pub fn uses_right(opcode: i32) -> bool
    ensures { result ≡ uses_right (nat opcode) }
{
    FIRST_BINARY <= opcode
}

// Opcode 0 alone has a constant; one below 0 is refused before this is asked.
fn uses_constant(opcode: i32) -> bool
    ensures { result ≡ eqb (nat opcode) 0 }
{
    opcode <= 0
}

fn is_opcode(opcode: i32) -> bool
    ensures { result ≡ is_opcode opcode }
{
    (0 <= opcode) & (opcode <= LAST_OPCODE)
}

fn is_slot(slots: u32, v: i32) -> bool
    requires { slots ≤ slot_limit }
    ensures { result ≡ is_slot slots v }
{
    (0 <= v) & (v < slots as i32)
}

fn bad_slot(slots: u32, f: Fields) -> bool
    requires { slots ≤ slot_limit }
    ensures { result ≡ bad_slot slots (raw_of f) }
{
    let left = !uses_left(f.opcode) | is_slot(slots, f.left);
    let right = !uses_right(f.opcode) | is_slot(slots, f.right);
    !(is_slot(slots, f.out) & left & right)
}

fn bad_unused(f: Fields) -> bool
    ensures { result ≡ bad_unused (raw_of f) }
{
    let left = uses_left(f.opcode) | (f.left == 0);
    let right = uses_right(f.opcode) | (f.right == 0);
    let constant = uses_constant(f.opcode) | (f.constant == 0);
    !(left & right & constant)
}

fn bad_constant(f: Fields) -> bool
    ensures { result ≡ bad_constant (raw_of f) }
{
    uses_constant(f.opcode) & (f.constant == i32::MIN)
}

// A slot is read that no earlier clause wrote.
fn unwritten(written: &SlotSet, uses: bool, slot: i32) -> bool
    requires { uses ≡ true → is_slot slot_limit slot ≡ true }
    ensures { (ns : List ℕ) → IsSet written.now ns → result ≡ (uses && not (is_in (nat slot) ns)) }
{
    uses && !written.has(slot as u32)
}

fn bad_read(slots: u32, written: &SlotSet, f: Fields) -> bool
    requires slots_le_slot_limit { slots ≤ slot_limit }
    requires f_value { bad_slot slots (raw_of f) ≡ false }
    ensures { (ns : List ℕ) → IsSet written.now ns → result ≡ bad_read ns (raw_of f) }
{
    let left = unwritten(written, uses_left(f.opcode), f.left);
    let right = unwritten(written, uses_right(f.opcode), f.right);
    left | right
}

// Lines 5 to 9 of the refusals at one clause, given the slots that earlier clauses wrote.
pub fn check_clause(slots: u32, written: &SlotSet, f: Fields) -> Result<(), Fault>
    requires { slots ≤ slot_limit }
    ensures { (ns : List ℕ) → IsSet written.now ns → fault_of result ≡ clause_fault slots ns (raw_of f) }
{
    if !is_opcode(f.opcode) {
        return Err(Fault::WrongOpcode);
    }
    if bad_slot(slots, f) {
        return Err(Fault::WrongSlot);
    }
    if bad_unused(f) {
        return Err(Fault::UnusedNotZero);
    }
    if bad_constant(f) {
        return Err(Fault::LeastConstant);
    }
    if bad_read(slots, written, f) {
        return Err(Fault::UnwrittenSlot);
    }
    Ok(())
}
