// What differs between the two ways to run: how a value is stored, a yoke changed, a test asked, a reading taken and a variable copied, and the
// present bodies that a call begins with.
ghost use Rattle.std.specs.Prelude.{◌≡◌, true, List, ◌+◌, ◌*◌, ◌<◌, ◌≤◌, ℤ, length};
ghost use Rattle.lingua.specs.Numbers.{body_cells, declaration_section, expression_section};
ghost use Rattle.lingua.specs.Outcome.{◌>>=◌ as bind};
ghost use Rattle.lingua.specs.Rows.{table_count, pair_count};
ghost use Rattle.lingua.specs.Refusal.{is_quantity_variable};
ghost use Rattle.lingua.specs.Evaluation.{eval as meaning, no_current};
ghost use Rattle.lingua.specs.Faults.{number_of};
ghost use Rattle.lingua.specs.Store.{Variable, contents, assigned, yoke_changed, reading_taken};
ghost use Rattle.lingua.specs.Trees.{expression_tree, yoke_tree};
ghost use Rattle.safety.specs.Accepted.{AcceptedRows};
ghost use Rattle.profile.specs.Variables.{HasScope};
ghost use Rattle.run.specs.Memory.{reading};
ghost use Rattle.run.specs.Lending.{lent_in, seen_in, SameSlices};
ghost use Rattle.erased_row.specs.Meaning.{TestRow};
ghost use Rattle.erased_store.specs.Meaning.{AssignRow, YokeRow};
ghost use Rattle.frames.specs.Meaning.{Standing, StandsUnder, Stores, TellsTest, HasFacing, Pair, Copies, BeginsBy, FreshBy};
ghost use Rattle.frames.specs.Lending.{context_of, under_limits};

use crate::context::Context;
use decoder::rows::Rows;
use decoder::tables::Table;
use lingua::errors::Error;
use run::memory::{Memory, Seen};

// A way to run.
pub trait Way {
    ghost use Rattle.frames.specs.Ways.{Way};

    // Which of the two it is.
    ghost way: { Way };

    // Variable n takes what expression row e gives.
    fn assign(
        context: &Context,
        memory: &mut Memory,
        n: usize,
        e: usize,
        stack: &mut [i64],
    ) -> Result<(), Error>
        requires standing { Standing way (context_of context.now) (lent_in memory.old) (length stack.old) (λ a. AssignRow context.now.rows.now a n e) }
        requires e_lt_count { e < table_count context.now.rows.now expression_section }
        ensures stores { Stores way (context_of context.now) (lent_in memory.old) (lent_in memory.new) (number_of result)
            (λ a. AssignRow context.now.rows.now a n e) (λ vs. bind (meaning (expression_tree context.now.rows.now e) (contents vs) no_current) (assigned vs n)) }
        ensures same_slices { SameSlices memory.old memory.new };

    // Variable n's yoke becomes y, where the value that it has satisfies it.
    fn change_yoke(
        context: &Context,
        memory: &mut Memory,
        n: usize,
        y: u16,
        stack: &mut [i64],
    ) -> Result<(), Error>
        requires standing { Standing way (context_of context.now) (lent_in memory.old) (length stack.old) (λ a. YokeRow context.now.rows.now a n y) }
        requires y_le_count { y ≤ table_count context.now.rows.now expression_section }
        ensures stores { Stores way (context_of context.now) (lent_in memory.old) (lent_in memory.new) (number_of result)
            (λ a. YokeRow context.now.rows.now a n y) (λ vs. yoke_changed vs n (yoke_tree context.now.rows.now y)) }
        ensures cells_same { memory.new.cells.now ≡ memory.old.cells.now }
        ensures bodies_same { memory.new.bodies.now ≡ memory.old.bodies.now }
        ensures same_slices { SameSlices memory.old memory.new };

    // Whether the test of expression row e holds.
    fn test(context: &Context, memory: &Seen, e: usize, stack: &mut [i64]) -> Result<bool, Error>
        requires stands_under { StandsUnder way context.now.rows.now context.now.layout.now (seen_in memory.now) (length stack.old) (λ a. TestRow context.now.rows.now a e) }
        requires e_lt_count { e < table_count context.now.rows.now expression_section }
        ensures { (limits : List ℤ) → TellsTest way (under_limits context.now limits) (seen_in memory.now) e result };

    // Variable n of the profile takes a number from outside: a number, or a count of hundredths.
    fn take_reading(
        context: &Context,
        memory: &mut Memory,
        n: usize,
        z: i64,
        stack: &mut [i64],
    ) -> Result<(), Error>
        requires standing { Standing way (context_of context.now) (lent_in memory.old) (length stack.old) (λ a. a ≡ 0) }
        requires n_bound { (n < pair_count context.now.rows.now declaration_section) × (is_quantity_variable context.now.rows.now n ≡ true) }
        ensures stores { Stores way (context_of context.now) (lent_in memory.old) (lent_in memory.new) (number_of result)
            (λ a. a ≡ 0) (λ vs. reading_taken vs (reading n z)) }
        ensures same_slices { SameSlices memory.old memory.new };

    // Variable n of one memory is assigned to variable m of another, as between a call's variables and its caller's.
    fn copy(
        context: &Context,
        from: &Seen,
        n: usize,
        memory: &mut Memory,
        m: usize,
        stack: &mut [i64],
    ) -> Result<(), Error>
        requires { HasFacing way (seen_in from.now) (context_of context.now) (lent_in memory.old) (length stack.old) (λ p a b vs ws. Pair way p a b vs ws n m) }
        ensures copies { Copies way (seen_in from.now) (context_of context.now) (lent_in memory.old) (lent_in memory.new) n m (number_of result) }
        ensures same_slices { SameSlices memory.old memory.new };

    // The present bodies of a call's variables at its start: the declared ones, or none.
    fn begin_bodies(rows: &Rows, t: Table, types: &[u8], present: &mut [u8])
        requires accepted_rows { AcceptedRows rows.now × HasScope rows.now t }
        requires begins_by { BeginsBy way rows.now types.now present.old }
        ensures { FreshBy way rows.now t present.new };
}
