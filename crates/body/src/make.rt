// Bodies made of others, and taken out of them.
ghost use Rattle.std.specs.Prelude.{◌≡◌, [], ◌∷◌, ℕ, ◌+◌, ◌<◌};
ghost use Rattle.lingua.specs.Numbers.{body_bytes};
ghost use Rattle.lingua.specs.Body.{Body, list_of, record_of, Attributes, end, attribute, nodes, insert_attribute, remove_attribute};
ghost use Rattle.lingua.specs.Value.{pad};
ghost use Rattle.lingua.specs.Encode.{encoded};
ghost use Rattle.body.specs.Encode.{Holds};
ghost use Rattle.body.specs.Walk.{At, SomeAt};
ghost use Rattle.body.specs.Find.{Room, PlacedAt, SomePlacedAt};

use crate::find::place;
use crate::parts::{part, pasted};
use crate::walk::{LIST, RECORD, WORD, measure_at, measure_body, measured};
use lingua::sizes::BODY_BYTES;

// the bytes past a tag
const PAST_TAG: usize = BODY_BYTES - 1;

// A simple body is its tag alone.
pub fn simple(tag: u8) -> [u8; BODY_BYTES]
    ensures { result ≡ pad body_bytes 0 (tag ∷ []) }
{
    let mut out = [0u8; BODY_BYTES];
    out[0] = tag;
    out
}

// The last byte that falls out is a zero: no body fills all 96.
pub fn list_of(body: [u8; BODY_BYTES]) -> [u8; BODY_BYTES]
    ensures { (b : Body) → Holds body b → result ≡ encoded (list_of b) }
{
    let mut out = [0u8; BODY_BYTES];
    out[0] = LIST;
    pasted(out, 1, body, 0, PAST_TAG)
}

pub fn record_of(n: u8, body: [u8; BODY_BYTES]) -> [u8; BODY_BYTES]
    ensures { (b : Body) → Holds body b → nodes b < 32 → result ≡ encoded (record_of (attribute n b end)) }
{
    let mut out = [0u8; BODY_BYTES];
    out[0] = RECORD;
    out[1] = 1;
    out[2] = n;
    pasted(out, 3, body, 0, 93)
}

// A list's element.
pub fn element(body: [u8; BODY_BYTES]) -> [u8; BODY_BYTES]
    ensures { (b : Body) → Holds body (list_of b) → Holds result b }
{
    part(body, 1, PAST_TAG)
}

// The body that stands at a place, by itself; a boolean, a number or a word is made by its tag.
pub fn body_at(body: [u8; BODY_BYTES], at: usize) -> [u8; BODY_BYTES]
    requires { SomeAt body at }
    ensures { (b : Body) → At body at b → result ≡ encoded b }
{
    let tag = body[at];
    if tag <= WORD {
        return simple(tag);
    }
    let m = measure_at(body, at);
    part(body, at, m.next - at)
}

// A record with one attribute more, between those below it and those above.
pub fn insert(body: [u8; BODY_BYTES], n: u8, added: [u8; BODY_BYTES]) -> [u8; BODY_BYTES]
    requires { Room body added }
    ensures { (fs : Attributes) (c : Body) → Holds body (record_of fs) → Holds added c → result ≡ encoded (record_of (insert_attribute n c fs)) }
{
    let at = place(body, n);
    let whole = measure_body(body);
    let extra = measure_body(added);
    let end = whole.next;
    let more = extra.next;
    let mut head = [0u8; BODY_BYTES];
    head[0] = RECORD;
    head[1] = body[1] + 1;
    let mut below = pasted(head, 2, body, 2, at - 2);
    below[at] = n;
    let both = pasted(below, at + 1, added, 0, more);
    pasted(both, at + 1 + more, body, at, end - at)
}

// A record without the attribute whose body stands at a place: what stands behind it, zeros too, moves to where its number stood.
pub fn cut(body: [u8; BODY_BYTES], at: usize) -> [u8; BODY_BYTES]
    requires { SomePlacedAt body at }
    ensures { (n : ℕ) (fs : Attributes) → Holds body (record_of fs) → PlacedAt at n fs → Holds result (record_of (remove_attribute n fs)) }
{
    let m = measured(body, at);
    let behind = m.next;
    let number = at - 1;
    let mut head = part(body, 0, number);
    head[1] = body[1] - 1;
    pasted(head, number, body, behind, BODY_BYTES - behind)
}
