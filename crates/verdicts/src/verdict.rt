// The verdict on a tile, which the first byte of its entry says.
ghost use Rattle.verdicts.specs.Verdicts.{Says, Said};

// Not judged yet, all material, none, or a short tape that is kept: in the order of their bytes.
#[derive(Clone, Copy)]
pub enum Verdict {
    Unknown,
    Full,
    Empty,
    Kept,
}

// A byte that says none of them.
#[derive(Clone, Copy)]
pub struct NoVerdict(pub u8);

impl TryFrom<u8> for Verdict {
    type Error = NoVerdict;

    ghost try_from_gives = { Says };

    fn try_from(byte: u8) -> Result<Self, NoVerdict> {
        match byte {
            0 => Ok(Verdict::Unknown),
            1 => Ok(Verdict::Full),
            2 => Ok(Verdict::Empty),
            3 => Ok(Verdict::Kept),
            _ => Err(NoVerdict(byte)),
        }
    }
}

impl From<Verdict> for u8 {
    ghost from_gives = { Said };

    fn from(verdict: Verdict) -> Self {
        verdict as u8
    }
}
