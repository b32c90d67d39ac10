// The half on bodies of the operations of two operands.
ghost use Rattle.std.specs.Prelude.{◌≡◌, ◌&&◌};
ghost use Rattle.lingua.specs.Body.{Body, boolean, is_quantity, same_body};
ghost use Rattle.lingua.specs.Operation.{quantities_to, equal, glue, expand, change, push, binary_body};
ghost use Rattle.lingua.specs.Typing.{hundredths_flag};
ghost use Rattle.body.specs.Encode.{Holds, Held};
ghost use Rattle.body.specs.Typed.{Types, binary_offset};

use body::find::find;
use body::make::{body_at, element, insert};
use body::parts::same;
use body::typed::{Typed, scalar, too_large};
use body::walk::{BOOLEAN, HUNDREDTHS, LIST, NUMBER, RECORD, WORD, measure_body};
use lingua::errors::Error;
use lingua::sizes::BODY_BYTES;

// Two numbers, or two hundredths.
fn quantities(x: [u8; BODY_BYTES], y: [u8; BODY_BYTES]) -> bool
    ensures { (b c : Body) → Holds x b → Holds y c → result ≡ (is_quantity b && same_body b c) }
{
    let a = x[0];
    let b = y[0];
    if a == NUMBER {
        return b == NUMBER;
    }
    if a == HUNDREDTHS {
        return b == HUNDREDTHS;
    }
    false
}

// Kinds 5 to 8: the operands' own body; the second number is 1 for hundredths.
pub fn reckoned(x: [u8; BODY_BYTES], y: [u8; BODY_BYTES]) -> Result<Typed, Error>
    ensures { (b c : Body) → Holds x b → Holds y c → Types result (quantities_to b b c) (hundredths_flag b) }
{
    if !quantities(x, y) {
        return Err(Error::NumberExpected);
    }
    if x[0] == HUNDREDTHS {
        return Ok(Typed {
            body: x,
            cells: 1,
            offset: 1,
        });
    }
    Ok(scalar(NUMBER))
}

// Kind 9.
pub fn compared(x: [u8; BODY_BYTES], y: [u8; BODY_BYTES]) -> Result<Typed, Error>
    ensures { (b c : Body) → Holds x b → Holds y c → Types result (quantities_to boolean b c) 0 }
{
    if !quantities(x, y) {
        return Err(Error::NumberExpected);
    }
    Ok(scalar(BOOLEAN))
}

// Kind 10: a list or a record can't be compared.
pub fn equal(x: [u8; BODY_BYTES], y: [u8; BODY_BYTES]) -> Result<Typed, Error>
    ensures { (b c : Body) → Holds x b → Holds y c → Types result (binary_body equal b c) 0 }
{
    if x[0] == LIST {
        return Err(Error::NotComparable);
    }
    if x[0] == RECORD {
        return Err(Error::NotComparable);
    }
    if !same(x, y) {
        return Err(Error::NotComparable);
    }
    Ok(scalar(BOOLEAN))
}

// Kind 13.
pub fn glue(x: [u8; BODY_BYTES], y: [u8; BODY_BYTES]) -> Result<Typed, Error>
    ensures { (b c : Body) → Holds x b → Holds y c → Types result (binary_body glue b c) 0 }
{
    if x[0] != WORD {
        return Err(Error::WordExpected);
    }
    if y[0] != WORD {
        return Err(Error::WordExpected);
    }
    Ok(scalar(WORD))
}

// Kind 17. An attribute that is there already comes before a record that gets too large.
pub fn expand(n: u8, x: [u8; BODY_BYTES], y: [u8; BODY_BYTES]) -> Result<Typed, Error>
    requires held { Held x }
    requires held_2 { Held y }
    ensures { (b c : Body) → Holds x b → Holds y c → Types result (binary_body (expand n) b c) (binary_offset (expand n) b c) }
{
    if x[0] != RECORD {
        return Err(Error::RecordExpected);
    }
    let present = find(x, n).is_some();
    if present {
        return Err(Error::AttributePresent);
    }
    let m = measure_body(x);
    let k = measure_body(y);
    let cells = m.cells + k.cells;
    let depth = m.depth.max(1 + k.depth);
    if too_large(cells, m.nodes + k.nodes, depth, x[1] + 1) {
        return Err(Error::BodyTooLarge);
    }
    let body = insert(x, n, y);
    let f = find(body, n).unwrap();
    Ok(Typed {
        body: body,
        cells: cells,
        offset: f.offset,
    })
}

// Kind 19.
pub fn change(n: u8, x: [u8; BODY_BYTES], y: [u8; BODY_BYTES]) -> Result<Typed, Error>
    requires { Held x }
    ensures { (b c : Body) → Holds x b → Holds y c → Types result (binary_body (change n) b c) (binary_offset (change n) b c) }
{
    if x[0] != RECORD {
        return Err(Error::RecordExpected);
    }
    let f = find(x, n).ok_or(Error::NoSuchAttribute)?;
    let old = body_at(x, f.at);
    if !same(old, y) {
        return Err(Error::NoCoherence);
    }
    let m = measure_body(x);
    Ok(Typed {
        body: x,
        cells: m.cells,
        offset: f.offset,
    })
}

// Kind 21.
pub fn push(x: [u8; BODY_BYTES], y: [u8; BODY_BYTES]) -> Result<Typed, Error>
    requires { Held x }
    ensures { (b c : Body) → Holds x b → Holds y c → Types result (binary_body push b c) 0 }
{
    if x[0] != LIST {
        return Err(Error::ListExpected);
    }
    let inner = element(x);
    if !same(inner, y) {
        return Err(Error::NoCoherence);
    }
    let m = measure_body(x);
    Ok(Typed {
        body: x,
        cells: m.cells,
        offset: 0,
    })
}
