// The copies of a call: its caller's variables into its own, and on a clean end those that were given by reference back again.
ghost use Rattle.std.specs.Prelude.{◌≤◌, length};
ghost use Rattle.lingua.specs.Numbers.{most_parameters};
ghost use Rattle.lingua.specs.Faults.{number_of};
ghost use Rattle.run.specs.Lending.{lent_in, seen_in, SameSlices};
ghost use Rattle.frames.specs.Meaning.{HasFacing, AllPairs, AllBack, CopiesIn, CopiesOut};
ghost use Rattle.frames.specs.Lending.{context_of};

use crate::context::Context;
use crate::way::Way;
use decoder::groups::group;
use lingua::errors::Error;
use run::memory::{Memory, Seen};
use run::steps::{Status, settled};

// The variables of a field, one after the other, to the variables from first on; the first error ends it.
pub fn copies_in<W: Way>(
    context: &Context,
    from: &Seen,
    field: usize,
    count: usize,
    first: usize,
    own: &mut Memory,
    stack: &mut [i64],
) -> Result<(), Error>
    requires has_facing { HasFacing W.way (seen_in from.now) (context_of context.now) (lent_in own.old) (length stack.old) (λ p a b vs ws. AllPairs W.way p a b vs ws field count first) }
    requires count_le_most_parameters { (count ≤ most_parameters) × (first ≤ most_parameters) }
    ensures copies { CopiesIn W.way (seen_in from.now) (context_of context.now) (lent_in own.old) (lent_in own.new) field count first (number_of result) }
    ensures same_slices { SameSlices own.old own.new }
{
    for i in 0..count {
        W::copy(context, from, group(field, i), own, first + i, &mut *stack)?;
    }
    Ok(())
}

// The variables from first on, one after the other, to those of a field, unless an error is recorded; what came back before one stays. Field,
// count and first are read off the call's row where they are handed over: a struct of the three would be made only to be taken apart.
pub fn copies_out<W: Way>(
    row: u16,
    context: &Context,
    own: &Seen,
    field: usize,
    count: usize,
    first: usize,
    memory: &mut Memory,
    m: Status,
    stack: &mut [i64],
) -> Status
    requires has_facing { HasFacing W.way (seen_in own.now) (context_of context.now) (lent_in memory.old) (length stack.old) (λ p a b vs ws. AllBack W.way p a b vs ws field count first) }
    requires count_le_most_parameters { (count ≤ most_parameters) × (first ≤ most_parameters) }
    ensures copies { CopiesOut W.way (seen_in own.now) (context_of context.now) (lent_in memory.old) (lent_in memory.new) row field count first m result }
    ensures same_slices { SameSlices memory.old memory.new }
{
    if m.error.is_some() {
        return m;
    }
    for i in 0..count {
        let given = first + i;
        let copied = W::copy(context, own, given, memory, group(field, i), &mut *stack);
        if copied.is_err() {
            return settled(m, copied, row);
        }
    }
    m
}
