// Which bodies are coherent: equal ones, and two records of which one is the other with one attribute more.
ghost use Rattle.std.specs.Prelude.{◌≡◌, false};
ghost use Rattle.lingua.specs.Body.{Body, record_of, Attributes, same_body, same_attributes, remove_attribute, lacks_one, coherent};
ghost use Rattle.body.specs.Encode.{Holds, Held};
ghost use Rattle.body.specs.Find.{HeldRecord, HeldWith};

use crate::find::find;
use crate::make::cut;
use crate::parts::same;
use crate::walk::{RECORD, measured};
use lingua::sizes::BODY_BYTES;

// Most bodies that are compared are equal: what else may be asked stands apart, so that this is small enough to be taken into the caller.
pub fn coherent(x: [u8; BODY_BYTES], y: [u8; BODY_BYTES]) -> bool
    requires held { Held x }
    requires held_2 { Held y }
    ensures { (b c : Body) → Holds x b → Holds y c → result ≡ coherent b c }
{
    if same(x, y) {
        return true;
    }
    one_apart(x, y)
}

// Of two records that differ, only the one with more attributes can be the wider.
fn one_apart(x: [u8; BODY_BYTES], y: [u8; BODY_BYTES]) -> bool
    requires held { Held x }
    requires held_2 { Held y }
    ensures { (b c : Body) → Holds x b → Holds y c → false ≡ same_body b c → result ≡ coherent b c }
{
    if x[0] != RECORD {
        return false;
    }
    if y[0] != RECORD {
        return false;
    }
    if x[1] < y[1] {
        return lacks_one(x, y);
    }
    lacks_one(y, x)
}

// Whether the first record is the second without one of its attributes.
fn lacks_one(narrow: [u8; BODY_BYTES], wide: [u8; BODY_BYTES]) -> bool
    requires { HeldRecord wide }
    ensures { (fs gs : Attributes) → Holds narrow (record_of fs) → Holds wide (record_of gs) → result ≡ lacks_one fs gs }
{
    let mut at = 2;
    for _ in 0..wide[1] {
        if lacks(narrow, wide, wide[at]) {
            return true;
        }
        let m = measured(wide, at + 1);
        at = m.next;
    }
    false
}

// Whether the first record is the second without attribute n.
fn lacks(narrow: [u8; BODY_BYTES], wide: [u8; BODY_BYTES], n: u8) -> bool
    requires { HeldWith wide n }
    ensures { (fs gs : Attributes) → Holds narrow (record_of fs) → Holds wide (record_of gs) → result ≡ same_attributes fs (remove_attribute n gs) }
{
    let f = find(wide, n).unwrap();
    let rest = cut(wide, f.at);
    same(narrow, rest)
}
