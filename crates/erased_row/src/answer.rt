// Booleans on the stack. What evaluation gives is an error, or a value at the stack's front.
ghost use Rattle.std.specs.Prelude.{◌<◌, length};
ghost use Rattle.lingua.specs.Faults.{number_of};
ghost use Rattle.lingua.specs.Outcome.{ok, Result, ◌>>=◌ as bind};
ghost use Rattle.lingua.specs.Body.{boolean};
ghost use Rattle.lingua.specs.Value.{Value, truth, as_truth};
ghost use Rattle.cells.specs.Stack.{Lies, Leaves, first_place};
ghost use Rattle.run.specs.Reached.{Tells};

use lingua::errors::Error;

// A Boolean, put on the stack.
pub fn put_truth(holds: bool, stack: &mut [i64])
    requires { 0 < length stack.old }
    ensures { Lies stack.new first_place boolean (truth holds) }
{
    stack[0] = i64::from(holds);
}

// What the evaluation of a Boolean gave.
pub fn truth_of(answer: Result<(), Error>, stack: &[i64]) -> Result<bool, Error>
    requires { 0 < length stack.now }
    ensures { (o : Result Value) → Leaves (number_of answer) stack.now boolean o → Tells result (bind o (λ v. ok (as_truth v))) }
{
    answer?;
    Ok(stack[0] != 0)
}
