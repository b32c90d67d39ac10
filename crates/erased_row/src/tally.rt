// What is seen of the results of an all-list yoke, one for each element, all of them evaluated: the first error, and
// whether all are true.
ghost use Rattle.std.specs.Prelude.{List, [], ◌∷◌, ◌++◌, ◌<◌, length};
ghost use Rattle.lingua.specs.Faults.{number_of};
ghost use Rattle.lingua.specs.Outcome.{ok, Result, ◌>>=◌ as bind};
ghost use Rattle.lingua.specs.Body.{boolean};
ghost use Rattle.lingua.specs.Value.{Value, truth};
ghost use Rattle.cells.specs.Stack.{Leaves};
ghost use Rattle.run.specs.Reached.{Tells};
ghost use Rattle.erased_row.specs.Meaning.{all_told};

use crate::answer::{put_truth, truth_of};
use lingua::errors::Error;

// One result more.
pub fn tallied(
    seen: Result<bool, Error>,
    answer: Result<(), Error>,
    stack: &[i64],
) -> Result<bool, Error>
    requires { 0 < length stack.now }
    ensures { (rs : List (Result Value)) (o : Result Value) → Tells seen (all_told rs) → Leaves (number_of answer) stack.now boolean o → Tells result (all_told (rs ++ (o ∷ []))) }
{
    let so_far = seen?;
    let holds = truth_of(answer, stack)?;
    Ok(so_far && holds)
}

// The yoke's result.
pub fn concluded(seen: Result<bool, Error>, stack: &mut [i64]) -> Result<(), Error>
    requires { 0 < length stack.old }
    ensures { (rs : List (Result Value)) → Tells seen (all_told rs) → Leaves (number_of result) stack.new boolean (bind (all_told rs) (λ b. ok (truth b))) }
{
    let all = seen?;
    put_truth(all, stack);
    Ok(())
}
