// A rectangle of whole 64-tiles of a picture, as the calls with a shared table take it.
#![tactic(auto)]

ghost use Rattle.std.specs.Prelude.{◌≡◌};
ghost use Rattle.order_rules.specs.Orders.{across};

// Its first column and row of tiles, and how many of both.
#[repr(C)]
#[derive(Clone, Copy)]
pub struct Rectangle {
    pub column: u32,
    pub row: u32,
    pub columns: u32,
    pub rows: u32,
}

// The tiles along an axis of some samples.
pub fn tiles_along(samples: u32) -> usize
    ensures { result ≡ across samples }
{
    (samples as usize + 63) / 64
}
