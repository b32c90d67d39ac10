// The motor maker's limits, three cells for each variable.
ghost use Rattle.std.specs.Prelude.{◌≡◌, ◌&&◌, ◌+◌, ◌*◌, ◌≤◌, length};
ghost use Rattle.std.proofs.Math.Option.{Option};
ghost use Rattle.std.specs.Int.Signed.{le_z};
ghost use Rattle.lingua.specs.Numbers.{limit_cells};
ghost use Rattle.lingua.specs.Store.{Limit, within};
ghost use Rattle.profile.specs.Variables.{LimitAt};

use lingua::sizes::LIMIT_CELLS;

pub fn between(low: i64, high: i64, z: i64) -> bool
    ensures { result ≡ (le_z low z && le_z z high) }
{
    low <= z && z <= high
}

// Whether a number lies within variable n's limit, where it has one.
pub fn in_limits(kept: &[i64], n: usize, z: i64) -> bool
    requires { limit_cells * n + limit_cells ≤ length kept.now }
    ensures { (l : Option Limit) → LimitAt kept.now (limit_cells * n) l → result ≡ within l z }
{
    if kept[LIMIT_CELLS * n] == 0 {
        return true;
    }
    let low = kept[LIMIT_CELLS * n + 1];
    let high = kept[LIMIT_CELLS * n + 2];
    between(low, high, z)
}
