// Measuring a body by a walk of its bytes in preorder.
ghost use Rattle.std.specs.Prelude.{◌≡◌, ℕ};
ghost use Rattle.lingua.specs.Body.{Body, Attributes, count_attributes};
ghost use Rattle.body.specs.Encode.{Holds, Held};
ghost use Rattle.body.specs.Walk.{At, AttributesAt, SomeAt, SomeAttributesAt, Measured, AttributesMeasured};

use lingua::sizes::{BODY_BYTES, LIST_PLACES};

// Tags, the bytes that bodies are written in (specs/Encode).
pub const BOOLEAN: u8 = 1;

pub const NUMBER: u8 = 2;

pub const WORD: u8 = 3;

pub const LIST: u8 = 4;

pub const RECORD: u8 = 5;

pub const HUNDREDTHS: u8 = 7;

// A body's cells, nodes and depth, and the place after its last byte.
#[derive(Clone, Copy)]
pub struct Measure {
    pub cells: usize,
    pub nodes: usize,
    pub depth: usize,
    pub next: usize,
}

// The body at a place.
#[cycle(attributes_at_measure_at)]
pub fn measure_at(body: [u8; BODY_BYTES], at: usize) -> Measure
    requires { SomeAt body at }
    ensures { (b : Body) → At body at b → Measured result at b }
{
    let tag = body[at];
    if tag == LIST {
        let e = measure_at(body, at + 1);
        return Measure {
            cells: 1 + LIST_PLACES * e.cells,
            nodes: 1 + e.nodes,
            depth: 1 + e.depth,
            next: e.next,
        };
    }
    if tag == RECORD {
        let n = body[at + 1];
        let a = attributes_at(body, at + 2, n);
        return Measure {
            cells: a.cells,
            nodes: 1 + a.nodes,
            depth: 1 + a.depth,
            next: a.next,
        };
    }
    Measure {
        cells: 1,
        nodes: 1,
        depth: 1,
        next: at + 1,
    }
}

// The n attributes at a place, taken together; a boolean, a number or a word is passed without a call.
#[cycle(attributes_at_measure_at)]
fn attributes_at(body: [u8; BODY_BYTES], at: usize, n: u8) -> Measure
    requires { SomeAttributesAt body at n }
    ensures { (fs : Attributes) → AttributesAt body at fs → n ≡ count_attributes fs → AttributesMeasured result at fs }
{
    let mut next = at;
    let mut cells = 0;
    let mut nodes = 0;
    let mut depth: usize = 0;
    for _ in 0..n {
        if body[next + 1] <= WORD {
            cells += 1;
            nodes += 1;
            depth = depth.max(1);
            next += 2;
        } else {
            let m = measure_at(body, next + 1);
            cells += m.cells;
            nodes += m.nodes;
            depth = depth.max(m.depth);
            next = m.next;
        }
    }
    Measure {
        cells: cells,
        nodes: nodes,
        depth: depth,
        next: next,
    }
}

// The body at a place, where it may well be a boolean, a number or a word: most are.
pub fn measured(body: [u8; BODY_BYTES], at: usize) -> Measure
    requires { SomeAt body at }
    ensures { (b : Body) → At body at b → Measured result at b }
{
    if body[at] <= WORD {
        return Measure {
            cells: 1,
            nodes: 1,
            depth: 1,
            next: at + 1,
        };
    }
    measure_at(body, at)
}

pub fn measure_body(body: [u8; BODY_BYTES]) -> Measure
    requires { Held body }
    ensures { (b : Body) → Holds body b → Measured result 0 b }
{
    measured(body, 0)
}
