// The probe's answer, by the side of the surface that a value lies on.
ghost use Rattle.std.specs.Prelude.{◌≡◌};
ghost use Rattle.rules.specs.Probes.{stored_float};
ghost use Rattle.promises.specs.Sides.{side_of, side_number, side_value};

use promises::Probe;

// An i32 is an f64 without loss, and its exponent takes the power of two.
fn stored(v: i32) -> f64
    ensures { result ≡ stored_float v }
{
    v as f64 / 65536.0
}

pub fn side_of(v: i32) -> Probe
    ensures { result ≡ side_of v }
{
    if v < 0 {
        return Probe::Inside(stored(v));
    }
    if v > 0 {
        return Probe::Outside(stored(v));
    }
    Probe::Surface
}

// For callers without enums: the number of the case, and its value or 0.
pub fn side_number(p: Probe) -> u8
    ensures { result ≡ side_number p }
{
    match p {
        Probe::Inside(_) => 1,
        Probe::Outside(_) => 2,
        Probe::Surface => 3,
        Probe::Refused => 0,
    }
}

pub fn side_value(p: Probe) -> f64
    ensures { result ≡ side_value p }
{
    match p {
        Probe::Inside(x) => x,
        Probe::Outside(x) => x,
        Probe::Surface => 0.0,
        Probe::Refused => 0.0,
    }
}
