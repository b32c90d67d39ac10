// The start of a run: no variable is filled, and each has its declared yoke and limit. Limits are three cells for each variable: whether
// there is one, and its two ends. Whose each limit is was found when the pair of files was taken, so that no name is searched for here.
ghost use Rattle.run.specs.Begun.{Asked, Begun};
ghost use Rattle.std.specs.Prelude.{◌≡◌, List, length, replicate, ℕ, ◌/◌};
ghost use Rattle.lingua.specs.Numbers.{states_length, limit_cells_length};
ghost use Rattle.profile.specs.Variables.{HasScope};
ghost use Rattle.safety.specs.Accepted.{AcceptedRows};
ghost use Rattle.run.specs.Kept.{YokesKept, LimitsFrom, Limited, LaterKept};

use crate::words::set_yoke;
use decoder::rows::Rows;
use decoder::tables::Table;
use lingua::sizes::{LIMIT_CELLS, MOST_LIMITS};
use profile::declarations::declared_yoke;
use profile::limits::{limit_high, limit_low};

// The second word of each variable, the profile's or a procedure's.
pub fn keep_yokes(rows: &Rows, t: Table, states: &mut [u16])
    requires accepted_rows { AcceptedRows rows.now }
    requires has_scope { HasScope rows.now t }
    requires states_value { states.old ≡ replicate states_length 0 }
    ensures { YokesKept rows.now t states.new (t.count / 2) }
{
    let count = t.count / 2;
    for d in 0..count {
        let yoke = declared_yoke(rows, t, d);
        set_yoke(states, d, yoke as u16);
    }
}

// Limit l, for the variable whose it is.
fn keep_limit(limits: &Rows, owners: [u8; MOST_LIMITS], l: usize, kept: &mut [i64])
    requires { (rows : List ℕ) × LaterKept rows limits.now owners kept.old l }
    ensures { (rows : List ℕ) → LaterKept rows limits.now owners kept.old l → LimitsFrom rows limits.now kept.new l }
{
    let d = owners[l] as usize;
    let low = limit_low(limits, l);
    let high = limit_high(limits, l);
    let at = LIMIT_CELLS * d;
    kept[at] = 1;
    kept[at + 1] = low;
    kept[at + 2] = high;
}

// Each limit for its variable, from the last to the first: of two limits of one name the first would count.
fn keep_limits(limits: &Rows, owners: [u8; MOST_LIMITS], kept: &mut [i64])
    requires by_index { (rows : List ℕ) × Limited rows limits.now owners }
    requires kept_len { length kept.old ≡ limit_cells_length }
    ensures { (rows : List ℕ) → Limited rows limits.now owners → LimitsFrom rows limits.now kept.new 0 }
{
    kept.fill(0);
    let t = limits.limits();
    for l in (0..t.count / 2).rev() {
        keep_limit(limits, owners, l, kept);
    }
}

// Memory as it is at the start of either run, whatever was in it.
pub fn start(
    rows: &Rows,
    limits: &Rows,
    owners: [u8; MOST_LIMITS],
    kept: &mut [i64],
    cells: &mut [i64],
    states: &mut [u16],
)
    requires { Asked rows.now limits.now owners kept.old cells.old states.old }
    ensures { Begun rows.now limits.now kept.new cells.new states.new }
{
    cells.fill(0);
    states.fill(0);
    keep_yokes(rows, rows.declarations(), states);
    keep_limits(limits, owners, kept);
}
