// To the nearest whole number, a half away from zero: sizes are rounded, and the sign is that of the exact fraction. The bounds are those
// of a product of two counts and of a count: nothing here can wrap.
ghost use Rattle.std.specs.Prelude.{◌≡◌, ◌≤◌, ◌<◌, pos, nat_abs};
ghost use Rattle.lingua.specs.Rounding.{nearest_size, nearest};

// The distance from zero.
fn size(x: i64) -> u64
    requires { nat_abs x ≤ 10000000000000000 }
    ensures { result ≡ nat_abs x }
{
    if x < 0 {
        let n = 0 - x;
        return n as u64;
    }
    x as u64
}

// The machine cuts; what it leaves of n decides, and a half goes up.
fn nearest_size(n: u64, d: u64) -> u64
    requires n_bound { n ≤ 10000000000000000 }
    requires d_nonzero { 0 < d }
    ensures { result ≡ nearest_size n d }
{
    let q = n / d;
    let rest = n % d;
    if 2 * rest < d {
        return q;
    }
    q + 1
}

// The nearest to x / y.
pub fn nearest(x: i64, y: i64) -> i64
    requires x_bound { nat_abs x ≤ 10000000000000000 }
    requires y_bound { nat_abs y ≤ 100000000 }
    requires fact { y ≡ pos 0 → ⊥ }
    ensures { result ≡ nearest x y }
{
    let n = size(x);
    let d = size(y);
    let q = nearest_size(n, d) as i64;
    if x < 0 {
        if y < 0 {
            return q;
        }
        return 0 - q;
    }
    if y < 0 {
        return 0 - q;
    }
    q
}
