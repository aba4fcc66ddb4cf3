// A list's clauses: five numbers each.
ghost use Rattle.std.specs.Prelude.{◌≡◌, ◌∷◌, ◌+◌, ◌≤◌, length, drop};
ghost use Rattle.std.proofs.lemmas.List.Edits.{sets};
ghost use Rattle.rules.specs.Tapes.{raws_of};
ghost use Rattle.tape.specs.Clauses.{raw_of, five};

use crate::Fields;

// The clause whose five numbers start at `at`.
pub fn fields_of(list: &[i32], at: usize) -> Fields
    requires { at + 5 ≤ length list.now }
    ensures { raws_of (drop at list.now) ≡ raw_of result ∷ raws_of (drop (at + 5) list.now) }
{
    Fields {
        opcode: list[at],
        out: list[at + 1],
        left: list[at + 2],
        right: list[at + 3],
        constant: list[at + 4],
    }
}

pub fn put_numbers(out: &mut [i32], at: usize, f: Fields)
    requires { at + 5 ≤ length out.old }
    ensures { out.new ≡ sets out.old at (five (raw_of f)) }
{
    out[at] = f.opcode;
    out[at + 1] = f.out;
    out[at + 2] = f.left;
    out[at + 3] = f.right;
    out[at + 4] = f.constant;
}
