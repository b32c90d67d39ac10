// The inputs of a run (document 01: readings): in order, without steps, and none after an error.
ghost use Rattle.std.specs.Prelude.{◌≡◌, true, false, ◌<◌, length, is_some};
ghost use Rattle.lingua.specs.Numbers.{declaration_section};
ghost use Rattle.lingua.specs.Rows.{pair_count};
ghost use Rattle.lingua.specs.Refusal.{is_quantity_variable};
ghost use Rattle.lingua.specs.Calls.{readings_of};
ghost use Rattle.run.specs.Reached.{Going};
ghost use Rattle.run.specs.Lending.{lent_in, SameSlices};
ghost use Rattle.frames.specs.Meaning.{Standing};
ghost use Rattle.frames.specs.Lending.{context_of};
ghost use Rattle.whole_run.specs.Meaning.{Readable, Takes, TakesAll};

use frames::context::Context;
use frames::way::Way;
use lingua::sizes::READING_PLACE;
use run::memory::Memory;
use run::steps::{Status, settled};

// One input: its error is recorded with its place.
fn take_one<W: Way>(
    context: &Context,
    memory: &mut Memory,
    n: usize,
    z: i64,
    place: u16,
    m: Status,
    stack: &mut [i64],
) -> Status
    requires standing { Standing W.way (context_of context.now) (lent_in memory.old) (length stack.old) (λ a. a ≡ 0) }
    requires n_bound { (n < pair_count context.now.rows.now declaration_section) × (is_quantity_variable context.now.rows.now n ≡ true) }
    requires going { Going m × (is_some m.error ≡ false) }
    ensures takes { Takes W.way (context_of context.now) (lent_in memory.old) (lent_in memory.new) m result place n z }
    ensures same_slices { SameSlices memory.old memory.new }
{
    let taken = W::take_reading(context, memory, n, z, stack);
    settled(m, taken, place)
}

pub fn take_readings<W: Way>(
    context: &Context,
    memory: &mut Memory,
    who: &[u16],
    numbers: &[i64],
    m: Status,
    stack: &mut [i64],
) -> Status
    requires standing { Standing W.way (context_of context.now) (lent_in memory.old) (length stack.old) (λ a. a ≡ 0) }
    requires going { Going m }
    requires readable { Readable context.now.rows.now who.now numbers.now }
    ensures takes { TakesAll W.way (context_of context.now) (lent_in memory.old) (lent_in memory.new) m result (readings_of who.now numbers.now) }
    ensures same_slices { SameSlices memory.old memory.new }
{
    let mut moment = m;
    for i in 0..who.len() {
        if moment.error.is_some() {
            return moment;
        }
        let n = who[i] as usize;
        let z = numbers[i];
        let place = (READING_PLACE + i) as u16;
        moment = take_one::<W>(context, memory, n, z, place, moment, &mut *stack);
    }
    moment
}
