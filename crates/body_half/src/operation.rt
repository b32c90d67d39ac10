// An operation's half on bodies at a row: the error, or the result's body and the layout table's second number.
ghost use Rattle.std.specs.Prelude.{◌≡◌, ◌≤◌, IfSome};
ghost use Rattle.lingua.specs.Body.{Body};
ghost use Rattle.lingua.specs.Operation.{unary_body, binary_body};
ghost use Rattle.lingua.specs.Operations.{unary_meaning, binary_meaning};
ghost use Rattle.lingua.specs.Typing.{unary_second, binary_second};
ghost use Rattle.body.specs.Encode.{Holds, Held};
ghost use Rattle.body_half.specs.Half.{Half, SimpleHalf};

use crate::binary::{change, compared, equal, expand, glue, push, reckoned};
use crate::unary::{
    make_list, make_record, negation, pop, remove, select, to_hundredths, to_number, top,
};
use body::typed::Typed;
use body::walk::{BOOLEAN, HUNDREDTHS, NUMBER, WORD};
use lingua::errors::Error;
use lingua::operations::{BinaryOperation, UnaryOperation};
use lingua::sizes::BODY_BYTES;

pub fn unary_half(o: UnaryOperation, x: [u8; BODY_BYTES]) -> Result<Typed, Error>
    requires { Held x }
    ensures { (b : Body) → Holds x b → Half result (unary_body (unary_meaning o) b) (λ d. unary_second (unary_meaning o) b) }
{
    match o {
        UnaryOperation::Negation => negation(x),
        UnaryOperation::MakeRecord(n) => make_record(n, x),
        UnaryOperation::Select(n) => select(n, x),
        UnaryOperation::MakeList => make_list(x),
        UnaryOperation::Top => top(x),
        UnaryOperation::Pop => pop(x),
        UnaryOperation::Remove(n) => remove(n, x),
        UnaryOperation::ToHundredths => to_hundredths(x),
        UnaryOperation::ToNumber => to_number(x),
    }
}

pub fn binary_half(
    o: BinaryOperation,
    x: [u8; BODY_BYTES],
    y: [u8; BODY_BYTES],
) -> Result<Typed, Error>
    requires held { Held x }
    requires held_2 { Held y }
    ensures { (b c : Body) → Holds x b → Holds y c → Half result (binary_body (binary_meaning o) b c) (λ d. binary_second (binary_meaning o) b c d) }
{
    match o {
        BinaryOperation::Add
        | BinaryOperation::Subtract
        | BinaryOperation::Multiply
        | BinaryOperation::Divide => reckoned(x, y),
        BinaryOperation::Less => compared(x, y),
        BinaryOperation::Equal => equal(x, y),
        BinaryOperation::Glue => glue(x, y),
        BinaryOperation::Expand(n) => expand(n, x, y),
        BinaryOperation::Change(n) => change(n, x, y),
        BinaryOperation::Push => push(x, y),
    }
}

// The tag of the simple body that an operation gives on simple bodies, where the second number is 0; none says nothing. What decides it is the
// first byte of each.
pub fn simple_unary(o: UnaryOperation, x: [u8; BODY_BYTES]) -> Option<u8>
    ensures { (b : Body) → Holds x b → SimpleHalf result (unary_body (unary_meaning o) b) (λ d. unary_second (unary_meaning o) b) }
{
    let a = x[0];
    match o {
        UnaryOperation::Negation => when_it(BOOLEAN, a, BOOLEAN),
        UnaryOperation::ToHundredths => when_it(NUMBER, a, HUNDREDTHS),
        UnaryOperation::ToNumber => when_it(HUNDREDTHS, a, NUMBER),
        _ => None,
    }
}

pub fn simple_binary(o: BinaryOperation, x: [u8; BODY_BYTES], y: [u8; BODY_BYTES]) -> Option<u8>
    ensures { (b c : Body) → Holds x b → Holds y c → SimpleHalf result (binary_body (binary_meaning o) b c) (λ d. binary_second (binary_meaning o) b c d) }
{
    let a = x[0];
    let b = y[0];
    match o {
        BinaryOperation::Add
        | BinaryOperation::Subtract
        | BinaryOperation::Multiply
        | BinaryOperation::Divide => when_both(NUMBER, a, b, NUMBER),
        BinaryOperation::Less => when_both(NUMBER, a, b, BOOLEAN),
        BinaryOperation::Equal => when_like(a, b),
        BinaryOperation::Glue => when_both(WORD, a, b, WORD),
        _ => None,
    }
}

// What an operand of the tag gives.
fn when_it(tag: u8, a: u8, gives: u8) -> Option<u8>
    ensures { IfSome result (λ g. (a ≡ tag) × (g ≡ gives)) }
{
    (a == tag).then_some(gives)
}

// What two operands of the same tag give.
fn when_both(tag: u8, a: u8, b: u8, gives: u8) -> Option<u8>
    ensures { IfSome result (λ g. (a ≡ tag) × (b ≡ tag) × (g ≡ gives)) }
{
    (a == tag && b == tag).then_some(gives)
}

// Two booleans, two numbers or two words can be compared; two hundredths too, but of them this says nothing.
fn when_like(a: u8, b: u8) -> Option<u8>
    ensures { IfSome result (λ g. (a ≤ 3) × (a ≡ b) × (g ≡ 1)) }
{
    (a <= WORD && a == b).then_some(BOOLEAN)
}
