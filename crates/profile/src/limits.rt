// The motor maker's limits: the two ends of each.
ghost use Rattle.std.specs.Prelude.{◌≡◌, ◌+◌, ◌*◌, ◌≤◌, ◌<◌};
ghost use Rattle.std.specs.Int.{w32};
ghost use Rattle.std.proofs.Common.{to_z};
ghost use Rattle.lingua.specs.Numbers.{row_bytes, limit_section};
ghost use Rattle.lingua.specs.Rows.{word32, pair_count, detail_row};
ghost use Rattle.lingua.specs.Trees.{limit_row};

use crate::constants::signed32;
use decoder::rows::Rows;
use lingua::sizes::ROW_BYTES;
use lingua::words::word32_at;

// An end of limit l: the number with a sign that begins at a byte of its second row.
fn end_at(limits: &Rows, l: usize, from: usize) -> i64
    requires l_bound { l < pair_count limits.now limit_section }
    requires from_bound { from ≤ 6 }
    ensures { result ≡ to_z w32 (word32 limits.now (row_bytes * detail_row limits.now limit_section l + from)) }
{
    let bytes = limits.bytes();
    let t = limits.limits();
    let i = t.start + (2 * l + 1);
    signed32(word32_at(bytes, ROW_BYTES * i + from))
}

// The low end of limit l.
pub fn limit_low(limits: &Rows, l: usize) -> i64
    requires { l < pair_count limits.now limit_section }
    ensures { result ≡ (limit_row limits.now l).low }
{
    end_at(limits, l, 2)
}

// The high end of limit l.
pub fn limit_high(limits: &Rows, l: usize) -> i64
    requires { l < pair_count limits.now limit_section }
    ensures { result ≡ (limit_row limits.now l).high }
{
    end_at(limits, l, 6)
}
