// What is seen of the results of an all-list yoke, one for each element, all of them evaluated: the first error, whether
// all are Booleans, and whether all are true.
ghost use Rattle.std.specs.Prelude.{List, [], ◌∷◌, ◌++◌, ◌<◌, length};
ghost use Rattle.lingua.specs.Outcome.{Result as Outcome};
ghost use Rattle.lingua.specs.Value.{Composite};
ghost use Rattle.lingua.specs.Evaluation.{all_true};
ghost use Rattle.checked_row.specs.Meaning.{Gives, Sees};

use crate::answer::{Evaluated, boolean};
use body_half::unary::is_boolean;
use lingua::errors::Error;

#[derive(Clone, Copy)]
pub struct Tally {
    pub booleans: bool,
    pub all: bool,
}

// One result more.
pub fn tallied(
    seen: Result<Tally, Error>,
    x: Result<Evaluated, Error>,
    stack: &[i64],
) -> Result<Tally, Error>
    requires { 0 < length stack.now }
    ensures { (rs : List (Outcome Composite)) (o : Outcome Composite) → Sees seen rs → Gives x stack.now o → Sees result (rs ++ (o ∷ [])) }
{
    let seen = seen?;
    let value = x?;
    if !is_boolean(value.body) {
        return Ok(Tally {
            booleans: false,
            all: false,
        });
    }
    Ok(Tally {
        booleans: seen.booleans,
        all: seen.all && stack[0] != 0,
    })
}

// The yoke's result: the first error, then 16, then whether all are true.
pub fn concluded(seen: Result<Tally, Error>, stack: &mut [i64]) -> Result<Evaluated, Error>
    requires { 0 < length stack.old }
    ensures { (rs : List (Outcome Composite)) → Sees seen rs → Gives result stack.new (all_true rs) }
{
    let seen = seen?;
    if !seen.booleans {
        return Err(Error::YokeExpected);
    }
    Ok(boolean(seen.all, stack))
}
