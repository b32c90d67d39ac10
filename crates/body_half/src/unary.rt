// The half on bodies of the operations of one operand.
ghost use Rattle.std.specs.Prelude.{◌≡◌};
ghost use Rattle.lingua.specs.Body.{Body, is_boolean};
ghost use Rattle.lingua.specs.Operation.{negation, make_record, select, make_list, top, pop, remove, to_hundredths, to_number, unary_body};
ghost use Rattle.lingua.specs.Typing.{unary_second};
ghost use Rattle.body.specs.Encode.{Holds, Held};
ghost use Rattle.body.specs.Typed.{Types};

use body::find::find;
use body::make::{body_at, cut, element, list_of, record_of};
use body::typed::{Typed, scalar, too_large};
use body::walk::{BOOLEAN, HUNDREDTHS, LIST, NUMBER, RECORD, measure_body};
use lingua::errors::Error;
use lingua::sizes::{BODY_BYTES, LIST_PLACES};

// What a test and a yoke are asked.
pub fn is_boolean(x: [u8; BODY_BYTES]) -> bool
    ensures { (b : Body) → Holds x b → result ≡ is_boolean b }
{
    x[0] == BOOLEAN
}

// Kind 14.
pub fn negation(x: [u8; BODY_BYTES]) -> Result<Typed, Error>
    ensures { (b : Body) → Holds x b → Types result (unary_body negation b) 0 }
{
    if x[0] != BOOLEAN {
        return Err(Error::BooleanExpected);
    }
    Ok(scalar(BOOLEAN))
}

// Kind 16. The bounds are asked before the record is made: within them it fits its 96 bytes.
pub fn make_record(n: u8, x: [u8; BODY_BYTES]) -> Result<Typed, Error>
    requires { Held x }
    ensures { (b : Body) → Holds x b → Types result (unary_body (make_record n) b) 0 }
{
    let m = measure_body(x);
    if too_large(m.cells, 1 + m.nodes, 1 + m.depth, 1) {
        return Err(Error::BodyTooLarge);
    }
    let body = record_of(n, x);
    Ok(Typed {
        body: body,
        cells: m.cells,
        offset: 0,
    })
}

// Kind 18.
pub fn select(n: u8, x: [u8; BODY_BYTES]) -> Result<Typed, Error>
    requires { Held x }
    ensures { (b : Body) → Holds x b → Types result (unary_body (select n) b) (unary_second (select n) b) }
{
    if x[0] != RECORD {
        return Err(Error::RecordExpected);
    }
    let f = find(x, n).ok_or(Error::NoSuchAttribute)?;
    let body = body_at(x, f.at);
    let m = measure_body(body);
    Ok(Typed {
        body: body,
        cells: m.cells,
        offset: f.offset,
    })
}

// Kind 20.
pub fn make_list(x: [u8; BODY_BYTES]) -> Result<Typed, Error>
    requires { Held x }
    ensures { (b : Body) → Holds x b → Types result (unary_body make_list b) 0 }
{
    let m = measure_body(x);
    let cells = 1 + LIST_PLACES * m.cells;
    if too_large(cells, 1 + m.nodes, 1 + m.depth, 0) {
        return Err(Error::BodyTooLarge);
    }
    let body = list_of(x);
    Ok(Typed {
        body: body,
        cells: cells,
        offset: 0,
    })
}

// Kind 22.
pub fn top(x: [u8; BODY_BYTES]) -> Result<Typed, Error>
    requires { Held x }
    ensures { (b : Body) → Holds x b → Types result (unary_body top b) 0 }
{
    if x[0] != LIST {
        return Err(Error::ListExpected);
    }
    let body = element(x);
    let m = measure_body(body);
    Ok(Typed {
        body: body,
        cells: m.cells,
        offset: 0,
    })
}

// Kind 23.
pub fn pop(x: [u8; BODY_BYTES]) -> Result<Typed, Error>
    requires { Held x }
    ensures { (b : Body) → Holds x b → Types result (unary_body pop b) 0 }
{
    if x[0] != LIST {
        return Err(Error::ListExpected);
    }
    let m = measure_body(x);
    Ok(Typed {
        body: x,
        cells: m.cells,
        offset: 0,
    })
}

// Kind 26. A record that lacks the attribute comes before one that has no other. The offset is that in the operand.
pub fn remove(n: u8, x: [u8; BODY_BYTES]) -> Result<Typed, Error>
    requires { Held x }
    ensures { (b : Body) → Holds x b → Types result (unary_body (remove n) b) (unary_second (remove n) b) }
{
    if x[0] != RECORD {
        return Err(Error::RecordExpected);
    }
    let gone = find(x, n).ok_or(Error::NoSuchAttribute)?;
    if x[1] < 2 {
        return Err(Error::LastAttribute);
    }
    let body = cut(x, gone.at);
    let m = measure_body(body);
    Ok(Typed {
        body: body,
        cells: m.cells,
        offset: gone.offset,
    })
}

// Kind 28.
pub fn to_hundredths(x: [u8; BODY_BYTES]) -> Result<Typed, Error>
    ensures { (b : Body) → Holds x b → Types result (unary_body to_hundredths b) 0 }
{
    if x[0] != NUMBER {
        return Err(Error::NumberExpected);
    }
    Ok(scalar(HUNDREDTHS))
}

// Kind 29.
pub fn to_number(x: [u8; BODY_BYTES]) -> Result<Typed, Error>
    ensures { (b : Body) → Holds x b → Types result (unary_body to_number b) 0 }
{
    if x[0] != HUNDREDTHS {
        return Err(Error::NumberExpected);
    }
    Ok(scalar(NUMBER))
}
