// Bytes behind those already written.
ghost use Rattle.std.specs.Prelude.{◌+◌, ◌≤◌, length};
ghost use Rattle.netpbm.specs.Appending.{Appends};

// Copies s into out from `at` on.
pub fn put(out: &mut [u8], at: usize, s: &[u8]) -> usize
    requires { at + length s.now ≤ length out.old }
    ensures { Appends out.old at s.now out.new result }
{
    // Narrow rows have no byte or one before their last: a copy that is called for each takes longer than all else.
    if s.len() == 0 {
        return at;
    }
    if s.len() == 1 {
        out[at] = s[0];
        return at + 1;
    }
    let next = at + s.len();
    out[at..next].copy_from_slice(s);
    next
}
