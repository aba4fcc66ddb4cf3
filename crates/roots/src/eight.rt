// One operation on each of eight values side by side, the lanes. Rows of lanes come and go as arrays by value, which the
// compiler takes several lanes at once; of two references it does not assume that they differ. It does so only where the
// operation and its loop stand in one function, so that these are always put into the one that calls them.
ghost use Rattle.std.specs.Prelude.{ℕ, ◌<◌};
ghost use Rattle.roots.specs.Eight.{lane_count, lane};

#[inline(always)]
pub fn each<F: Fn(i32) -> i32>(f: F, a: [i32; 8]) -> [i32; 8]
    requires { (k : ℕ) → k < lane_count → F.pre f (lane a k) }
    ensures { (k : ℕ) → k < lane_count → F.post f (lane a k) (lane result k) }
{
    let mut r = [0i32; 8];
    for k in 0..8 {
        r[k] = f(a[k]);
    }
    r
}

#[inline(always)]
pub fn two<F: Fn(i32, i32) -> i32>(f: F, a: [i32; 8], b: [i32; 8]) -> [i32; 8]
    requires { (k : ℕ) → k < lane_count → F.pre f (lane a k) (lane b k) }
    ensures { (k : ℕ) → k < lane_count → F.post f (lane a k) (lane b k) (lane result k) }
{
    let mut r = [0i32; 8];
    for k in 0..8 {
        r[k] = f(a[k], b[k]);
    }
    r
}
