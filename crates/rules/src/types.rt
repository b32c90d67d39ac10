// Rule 13 and the bodies of type rows, in a flat array that has BODY_BYTES for each.
ghost use Rattle.std.specs.Prelude.{◌≡◌, true, false, ℕ, ◌+◌, ◌*◌, ◌≤◌, length, Ok};
ghost use Rattle.lingua.specs.Numbers.{body_bytes, type_bodies_length, type_section};
ghost use Rattle.lingua.specs.Outcome.{Outcome, ok};
ghost use Rattle.lingua.specs.Body.{Body};
ghost use Rattle.lingua.specs.Rows.{table_count};
ghost use Rattle.lingua.specs.Rules.{attributes_fit, type_attributes};
ghost use Rattle.lingua.specs.References.{type_parts, type_wrong};
ghost use Rattle.lingua.specs.Trees.{type_body_of, type_body};
ghost use Rattle.safety.specs.Every.{Every};
ghost use Rattle.body.specs.Typed.{Types};
ghost use Rattle.decoder.specs.Decoded.{simple_meaning, type_meaning};
ghost use Rattle.rules.specs.Types.{HeldAt, LooksUp, Answers, TypesReady, BodiesBelow, RowReady};

use body::flat;
use body::typed::{Typed, scalar};
use body::walk::{BOOLEAN, HUNDREDTHS, NUMBER, WORD};
use body_half::binary::expand;
use body_half::unary::{make_list, make_record};
use decoder::decode::{Simple, TypeRow, type_at};
use decoder::rows::Rows;
use lingua::errors::Error;

#[tactic(auto, unfolding(decoder::specs::Decoded::simple_meaning, body::specs::Typed::simple_of, lingua::specs::Encode::bytes))]
fn simple_body(s: Simple) -> Typed
    ensures { Types (Ok result) (ok (simple_meaning s)) 0 }
{
    match s {
        Simple::Boolean => scalar(BOOLEAN),
        Simple::Number => scalar(NUMBER),
        Simple::Word => scalar(WORD),
        Simple::Hundredths => scalar(HUNDREDTHS),
    }
}

// The body that a type row makes of those that it names.
fn made_body(row: TypeRow, bodies: &[u8]) -> Result<Typed, Error>
    requires row_value { attributes_fit (type_attributes (type_meaning row)) ≡ true }
    requires every { Every (λ p. HeldAt bodies.now p) (type_parts (type_meaning row)) }
    ensures { (look : ℕ → Outcome ℕ Body) → Every (λ p. LooksUp look bodies.now p) (type_parts (type_meaning row)) → Answers result (type_body_of (type_meaning row) look) }
{
    match row {
        TypeRow::Simple(s) => Ok(simple_body(s)),
        TypeRow::List(a) => make_list(flat::taken(bodies, a)),
        TypeRow::Record(n, a) => make_record(n as u8, flat::taken(bodies, a)),
        TypeRow::Expand(a, n, b) => expand(n as u8, flat::taken(bodies, a), flat::taken(bodies, b)),
    }
}

// The body of type row r, from those of lower rows. Decoded here, since what rows.type_row(r) promises is only what a row names.
fn row_body(rows: &Rows, r: usize, bodies: &[u8]) -> Result<Typed, Error>
    requires { RowReady rows.now r bodies.now }
    ensures { Answers result (type_body rows.now r) }
{
    let bytes = rows.bytes();
    let t = rows.types();
    match type_at(bytes, t.start + r) {
        Some((_, row)) => made_body(row, bodies),
        None => Ok(scalar(BOOLEAN)),
    }
}

// Rule 13: each type row's body is within the bounds. Bodies are made from the lowest row up, each once; if no row is wrong, the array holds
// them all.
pub fn type_wrong(rows: &Rows, bodies: &mut [u8]) -> bool
    requires types_ready { TypesReady rows.now }
    requires bodies_len { length bodies.old ≡ type_bodies_length }
    ensures value { result ≡ type_wrong rows.now }
    ensures bodies_below { result ≡ false → BodiesBelow rows.now bodies.new (table_count rows.now type_section) }
{
    let types = rows.types();
    for r in 0..types.count {
        let Ok(made) = row_body(rows, r, bodies) else {
            return true;
        };
        flat::keep(bodies, r, made.body);
    }
    false
}
