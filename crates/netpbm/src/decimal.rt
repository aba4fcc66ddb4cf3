// Numbers in decimal, without leading zeros. The loops are our own: a library's digits would stand on a contract that
// nothing here proves.
ghost use Rattle.std.specs.Prelude.{◌≡◌, ◌∷◌, [], ◌+◌, ◌/◌, ◌≤◌, ◌<◌, length};
ghost use Rattle.rules.specs.Pictures.{numeral};
ghost use Rattle.netpbm.specs.Appending.{Appends};
ghost use Rattle.netpbm.specs.Places.{Place};

// How many digits there are.
pub fn number_length(v: u64) -> usize
    ensures { (result ≡ length (numeral v)) × (1 ≤ result) × (result ≤ 20) }
{
    let mut digits = 1;
    let mut rest = v;
    while rest >= 10 {
        rest /= 10;
        digits += 1;
    }
    digits
}

// What a 1 in the place of the first digit is worth.
fn first_place(v: u64) -> u64
    ensures { Place v result × (v / result < 10) }
{
    let mut place = 1;
    while v / place >= 10 {
        place *= 10;
    }
    place
}

fn put_digit(out: &mut [u8], at: usize, digit: u64) -> usize
    requires at_in_bounds { at < length out.old }
    requires digit_bound { digit < 10 }
    ensures { Appends out.old at ((48 + digit) ∷ []) out.new result }
{
    out[at] = 48 + digit as u8;
    at + 1
}

// From the first digit to the last.
pub fn put_number(out: &mut [u8], at: usize, v: u64) -> usize
    requires { at + length (numeral v) ≤ length out.old }
    ensures { Appends out.old at (numeral v) out.new result }
{
    let mut place = first_place(v);
    let mut next = put_digit(out, at, v / place);
    while place >= 10 {
        place /= 10;
        next = put_digit(out, next, v / place % 10);
    }
    next
}
