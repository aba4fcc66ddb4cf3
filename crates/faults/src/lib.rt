// The refusals of all calls: what is wrong, with its number, and the clause where it is.
#![tactic(auto)]

ghost use Rattle.std.specs.Prelude.{◌≡◌};

// The lines of the table of refusals, each with its number.
#[derive(Clone, Copy, PartialEq, Eq, Debug)]
pub enum Fault {
    ShortTape = 1,
    WrongHead = 2,
    WrongCounts = 3,
    WrongLength = 4,
    WrongOpcode = 5,
    WrongSlot = 6,
    UnusedNotZero = 7,
    LeastConstant = 8,
    UnwrittenSlot = 9,
    WrongSize = 10,
    WrongAxis = 11,
    PictureLength = 12,
    ShortWork = 13,
    OutputLength = 14,
    ProgramInput = 15,
    SolidTooWide = 16,
    WrongFormula = 17,
    DeepBracket = 18,
    LongFormula = 19,
    WrongCoordinate = 20,
    MergedTooLong = 21,
    WrongPlace = 22,
    PixelOutside = 23,
    WrongTable = 24,
    WrongPath = 25,
}

// A refusal: the fault, and the clause at fault in the tape or list, 0 for a fault that no clause has.
#[derive(Clone, Copy, PartialEq, Eq, Debug)]
pub struct Refusal {
    pub fault: Fault,
    pub place: u32,
}

impl Fault {
    ghost use Rattle.faults.specs.Numbers.{number_of};

    pub fn number(self) -> u8
        ensures { result ≡ number_of self }
    {
        self as u8
    }
}

impl From<Fault> for Refusal {
    ghost from_gives = { λ fault refusal. refusal ≡ record { fault = fault; place = 0 } };

    fn from(fault: Fault) -> Refusal {
        Refusal { fault, place: 0 }
    }
}
