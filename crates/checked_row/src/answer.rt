// What evaluation gives. A value's cells lie at the stack's front; its body goes by value.
ghost use Rattle.std.specs.Prelude.{◌≡◌, ◌<◌, length, Ok};
ghost use Rattle.lingua.specs.Outcome.{ok, Result as Outcome, ◌>>=◌ as bind};
ghost use Rattle.lingua.specs.Faults.{error_number};
ghost use Rattle.lingua.specs.Value.{Composite};
ghost use Rattle.lingua.specs.Evaluation.{boolean_of, truth_or};
ghost use Rattle.run.specs.Reached.{Tells};
ghost use Rattle.checked_row.specs.Meaning.{Gives, simple_evaluated};

use body::make::simple;
use body::walk::BOOLEAN;
use body_half::unary::is_boolean;
use lingua::errors::Error;
use lingua::sizes::BODY_BYTES;

// A value on the stack with its body and the number of its cells.
#[derive(Clone, Copy)]
pub struct Evaluated {
    pub body: [u8; BODY_BYTES],
    pub cells: usize,
}

// The current value of a yoke: its cells where they lie, and its body.
#[derive(Clone, Copy)]
pub struct CurrentValue<'a> {
    pub cells: &'a [i64],
    pub body: [u8; BODY_BYTES],
}

// A simple value, which lies on the stack, by its tag.
pub fn simple_value(tag: u8) -> Evaluated
    ensures { result ≡ simple_evaluated tag }
{
    let body = simple(tag);
    Evaluated { body, cells: 1 }
}

// A Boolean, put on the stack.
pub fn boolean(holds: bool, stack: &mut [i64]) -> Evaluated
    requires { 0 < length stack.old }
    ensures { Gives (Ok result) stack.new (ok (boolean_of holds)) }
{
    stack[0] = i64::from(holds);
    simple_value(BOOLEAN)
}

// What a test or a yoke gave, as a Boolean; another body is the error that is told.
pub fn truth_of(x: Result<Evaluated, Error>, other: Error, stack: &[i64]) -> Result<bool, Error>
    requires { 0 < length stack.now }
    ensures { (o : Outcome Composite) → Gives x stack.now o → Tells result (bind o (truth_or (error_number other))) }
{
    let value = x?;
    if !is_boolean(value.body) {
        return Err(other);
    }
    Ok(stack[0] != 0)
}
