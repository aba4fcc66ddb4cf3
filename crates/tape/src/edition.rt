// The editions of a tape's head. 02 is used only for what 01 cannot hold.
ghost use Rattle.std.specs.Prelude.{◌≡◌};
ghost use Rattle.rules.specs.Tapes.{edition, is_edition};

use crate::{FIRST_CLAUSES, FIRST_EDITION, FIRST_SLOTS, SECOND_EDITION};

pub fn is_edition(byte: u8) -> bool
    ensures { result ≡ is_edition byte }
{
    (byte == FIRST_EDITION) | (byte == SECOND_EDITION)
}

pub fn edition_of(slots: u32, clauses: u32) -> u8
    ensures { result ≡ edition slots clauses }
{
    if (slots as usize <= FIRST_SLOTS) & (clauses as usize <= FIRST_CLAUSES) {
        return FIRST_EDITION;
    }
    SECOND_EDITION
}
