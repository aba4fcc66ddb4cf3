// The sheet: clauses in list form, written from the front while there is room, and counted in any case.
ghost use Rattle.formula.specs.Sheets.{IsBlank, CanPush, Pushed};

use crate::steps::Step;
use tape::list::put_numbers;
use tape::{CLAUSE_NUMBERS, FIRST_CLAUSES};

// The numbers of as many clauses as a text may have.
pub const NUMBERS: usize = 5120;

// The clauses, how many they are, and the slots that they use.
#[derive(Drop)]
pub struct Sheet {
    pub list: [i32; NUMBERS],
    pub count: usize,
    pub slots: usize,
}

impl Sheet {
    pub fn blank() -> Sheet
        ensures { IsBlank result }
    {
        Sheet {
            list: [0; NUMBERS],
            count: 0,
            slots: 0,
        }
    }

    // One clause more, with its value in a slot.
    pub fn push(&mut self, step: Step, slot: usize)
        requires { CanPush self.old step slot }
        ensures { Pushed self.old step slot self.new }
    {
        if self.count < FIRST_CLAUSES {
            put_numbers(
                &mut self.list,
                CLAUSE_NUMBERS * self.count,
                step.fields(slot),
            );
        }
        self.count += 1;
        self.slots = self.slots.max(slot + 1);
    }
}
