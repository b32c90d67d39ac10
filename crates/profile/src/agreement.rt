// Rules 15 and 16: limits and readings agree with the declarations.
ghost use Rattle.std.specs.Prelude.{◌≡◌, false, ◌&&◌, ◌<◌, length};
ghost use Rattle.lingua.specs.Numbers.{name_bytes, most_limits, type_section, limit_section};
ghost use Rattle.lingua.specs.Body.{Body};
ghost use Rattle.lingua.specs.Value.{in_range_of};
ghost use Rattle.lingua.specs.Rows.{table_count, pair_count};
ghost use Rattle.lingua.specs.Refusal.{ends_fit, limit_wrong, reading_wrong};
ghost use Rattle.safety.specs.Accepted.{AcceptedRows};
ghost use Rattle.body.specs.Encode.{Holds};
ghost use Rattle.rules.specs.Types.{BodiesBelow};
ghost use Rattle.profile.specs.Variables.{DeclarationsKnown};
ghost use Rattle.profile.specs.Find.{limit, OneNamed, OwnerIs, LimitsRead, LimitsOwned};

use crate::declarations::{declared_body, is_quantity_variable};
use crate::find::find;
use crate::limits::{limit_high, limit_low};
use arith::in_range;
use body::walk::{HUNDREDTHS, NUMBER};
use decoder::fields::bytes_at;
use decoder::rows::Rows;
use lingua::sizes::{BODY_BYTES, MOST_READINGS};

fn both_in_range(hundredths: bool, low: i64, high: i64) -> bool
    ensures { result ≡ (in_range_of hundredths low && in_range_of hundredths high) }
{
    in_range(hundredths, low) && in_range(hundredths, high)
}

// Whether a value of the body may have either end of a limit: it must be a number, or a count of hundredths.
fn ends_fit(body: [u8; BODY_BYTES], low: i64, high: i64) -> bool
    ensures { (b : Body) → Holds body b → result ≡ ends_fit (limit low high) b }
{
    let tag = body[0];
    if tag == HUNDREDTHS {
        return both_in_range(true, low, high);
    }
    if tag == NUMBER {
        return both_in_range(false, low, high);
    }
    false
}

// The variable that has the name, where a value of it may have either end.
fn owner_named(rows: &Rows, bodies: &[u8], name: &[u8], low: i64, high: i64) -> Option<usize>
    requires declarations_known { DeclarationsKnown rows.now bodies.now }
    requires name_len { length name.now ≡ name_bytes }
    ensures { OneNamed (ends_fit (limit low high)) result rows.now name.now }
{
    let search = find(rows, name);
    let Some(index) = search.index else {
        return None;
    };
    let body = declared_body(rows, rows.declarations(), index, bodies);
    if ends_fit(body, low, high) {
        return Some(index);
    }
    None
}

// Whose limit l is, where its ends are in order and in that variable's range.
fn limit_owner(rows: &Rows, bodies: &[u8], limits: &Rows, l: usize) -> Option<usize>
    requires declarations_known { DeclarationsKnown rows.now bodies.now }
    requires l_bound { l < pair_count limits.now limit_section }
    ensures { OwnerIs result rows.now limits.now l }
{
    let low = limit_low(limits, l);
    let high = limit_high(limits, l);
    if high < low {
        return None;
    }
    let bytes = limits.bytes();
    let t = limits.limits();
    let name = bytes_at(bytes, t.start + 2 * l);
    owner_named(rows, bodies, name, low, high)
}

// Rule 15. Where it does not apply, each limit's owner is kept: its name is searched for here, and nowhere else.
pub fn limit_wrong(rows: &Rows, bodies: &[u8], limits: &Rows, owners: &mut [u8]) -> bool
    requires declarations_known { DeclarationsKnown rows.now bodies.now }
    requires limits_read { LimitsRead limits.now }
    requires owners_len { length owners.old ≡ most_limits }
    ensures value { result ≡ limit_wrong rows.now limits.now }
    ensures limits_owned { result ≡ false → LimitsOwned rows.now limits.now owners.new }
{
    let t = limits.limits();
    for l in 0..t.count / 2 {
        let owner = limit_owner(rows, bodies, limits, l);
        let Some(d) = owner else {
            return true;
        };
        owners[l] = d as u8;
    }
    false
}

// Rule 16.
pub fn reading_wrong(rows: &Rows, bodies: &[u8], variables: &[u16]) -> bool
    requires accepted_rows { AcceptedRows rows.now }
    requires bodies_below { BodiesBelow rows.now bodies.now (table_count rows.now type_section) }
    ensures { result ≡ reading_wrong rows.now variables.now }
{
    if MOST_READINGS < variables.len() {
        return true;
    }
    !variables
        .iter()
        .all(|v| is_quantity_variable(rows, *v as usize, bodies))
}
