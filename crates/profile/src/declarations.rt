// Declarations, the profile's or a procedure's: the type, body and yoke of variable d.
ghost use Rattle.std.specs.Prelude.{◌≡◌, ◌/◌, ◌<◌};
ghost use Rattle.lingua.specs.Body.{is_hundredths};
ghost use Rattle.lingua.specs.Numbers.{declaration_section, type_section};
ghost use Rattle.lingua.specs.Rows.{a_at, table_count, pair_count, detail_row};
ghost use Rattle.lingua.specs.Trees.{body_or, declared_body};
ghost use Rattle.lingua.specs.References.{yoke_in};
ghost use Rattle.lingua.specs.Refusal.{is_quantity_variable};
ghost use Rattle.safety.specs.Accepted.{AcceptedRows};
ghost use Rattle.decoder.specs.Decoded.{simple_meaning, type_meaning};
ghost use Rattle.rules.specs.Types.{BodiesBelow};
ghost use Rattle.profile.specs.Variables.{HasScope, VariablesKnown, DeclaredIs};
ghost use Rattle.profile.specs.Hundredths.{hundredths_row};

use body::flat;
use body::walk::{HUNDREDTHS, NUMBER};
use decoder::decode::{Simple, TypeRow, type_at};
use decoder::fields::{a_at, b_at};
use decoder::rows::Rows;
use decoder::tables::Table;
use lingua::sizes::BODY_BYTES;

// The type row of variable d.
pub fn declared_type(rows: &Rows, t: Table, d: usize) -> usize
    requires has_scope { HasScope rows.now t }
    requires d_bound { d < t.count / 2 }
    ensures { result ≡ a_at rows.now (detail_row rows.now t.section d) }
{
    a_at(rows.bytes(), t.start + (2 * d + 1))
}

// The declared yoke of variable d, as in the state words: 0, or one more than its expression row.
pub fn declared_yoke(rows: &Rows, t: Table, d: usize) -> usize
    requires has_scope { HasScope rows.now t }
    requires d_bound { d < t.count / 2 }
    ensures value { result ≡ yoke_in rows.now t.section d }
    ensures upper_bound { result < 65536 }
{
    b_at(rows.bytes(), t.start + (2 * d + 1))
}

// The declared body of variable d.
pub fn declared_body(rows: &Rows, t: Table, d: usize, bodies: &[u8]) -> [u8; BODY_BYTES]
    requires variables_known { VariablesKnown rows.now t bodies.now }
    requires d_bound { d < t.count / 2 }
    ensures { DeclaredIs rows.now t.section d result }
{
    let r = declared_type(rows, t, d);
    flat::taken(bodies, r)
}

// Whether d is a number variable of the profile, or one in hundredths.
pub fn is_quantity_variable(rows: &Rows, d: usize, bodies: &[u8]) -> bool
    requires accepted_rows { AcceptedRows rows.now }
    requires bodies_below { BodiesBelow rows.now bodies.now (table_count rows.now type_section) }
    ensures { result ≡ is_quantity_variable rows.now d }
{
    let t = rows.declarations();
    if t.count / 2 <= d {
        return false;
    }
    let body = declared_body(rows, t, d, bodies);
    let tag = body[0];
    tag == HUNDREDTHS || tag == NUMBER
}

fn is_hundredths(s: Simple) -> bool
    ensures { result ≡ is_hundredths (simple_meaning s) }
{
    matches!(s, Simple::Hundredths)
}

fn makes_hundredths(row: TypeRow) -> bool
    ensures { result ≡ hundredths_row (type_meaning row) }
{
    match row {
        TypeRow::Simple(s) => is_hundredths(s),
        _ => false,
    }
}

// Whether d is a variable of the profile in hundredths, by the kind of its type row: no body is needed for it.
pub fn in_hundredths(rows: &Rows, d: usize) -> bool
    requires accepted_rows { AcceptedRows rows.now }
    requires d_bound { d < pair_count rows.now declaration_section }
    ensures { result ≡ is_hundredths (body_or (declared_body rows.now d)) }
{
    let t = rows.declarations();
    let types = rows.types();
    let r = declared_type(rows, t, d);
    match type_at(rows.bytes(), types.start + r) {
        Some((_, row)) => makes_hundredths(row),
        None => false,
    }
}
