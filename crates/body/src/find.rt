// Where an attribute stands in a record, and where a new one goes.
ghost use Rattle.std.specs.Prelude.{◌≡◌, ◌+◌};
ghost use Rattle.lingua.specs.Body.{Attributes, record_of};
ghost use Rattle.body.specs.Encode.{Holds};
ghost use Rattle.body.specs.Find.{HeldRecord, FoundIs, bytes_below};

use crate::walk::measured;
use lingua::sizes::BODY_BYTES;

// Where the body of an attribute that is there stands, and the cells before its first.
#[derive(Clone, Copy)]
pub struct Found {
    pub at: usize,
    pub offset: usize,
}

// The offset counts the attributes that were passed, and not the one that is found.
pub fn find(body: [u8; BODY_BYTES], n: u8) -> Option<Found>
    requires { HeldRecord body }
    ensures { (fs : Attributes) → Holds body (record_of fs) → FoundIs result body n fs }
{
    let mut at = 2;
    let mut offset = 0;
    for _ in 0..body[1] {
        if body[at] == n {
            return Some(Found {
                at: at + 1,
                offset: offset,
            });
        }
        let m = measured(body, at + 1);
        at = m.next;
        offset += m.cells;
    }
    None
}

// Where attribute n goes, so that the numbers still ascend: before the first that is larger.
pub fn place(body: [u8; BODY_BYTES], n: u8) -> usize
    requires { HeldRecord body }
    ensures { (fs : Attributes) → Holds body (record_of fs) → result ≡ 2 + bytes_below n fs }
{
    let mut at = 2;
    for _ in 0..body[1] {
        if n < body[at] {
            return at;
        }
        let m = measured(body, at + 1);
        at = m.next;
    }
    at
}
