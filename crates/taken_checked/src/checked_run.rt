// The checked run of a pair of files that was taken (document 01: desk run). A refusal leaves all lent memory as it was.
ghost use Rattle.std.specs.Prelude.{◌≡◌, List, ℕ, length};
ghost use Rattle.lingua.specs.Numbers.{present_bodies_length};
ghost use Rattle.lingua.specs.Run.{run as meaning};
ghost use Rattle.lingua.specs.Trees.{profile_of};
ghost use Rattle.lingua.specs.Inputs.{inputs};
ghost use Rattle.lingua.specs.Calls.{readings_of, checked_result, checked_call};
ghost use Rattle.pair.specs.Pair.{PairIs};
ghost use Rattle.taken.specs.Given.{IsKnown, buffers_in, SameRegisters};
ghost use Rattle.taken.specs.Taken.{PairOf};
ghost use Rattle.taken.specs.Ways.{Startable, checked_end};

use frames::checked_way::Checked;
use lingua::RunAnswer;
use lingua::errors::Refusal;
use lingua::sizes::{PRESENT_BODIES_LENGTH, VARIABLE_BODIES_LENGTH};
use pair::Pair;
use taken::given::{Asked, Registers, Runnable};
use taken::present::copy_front;
use taken::refusal::run_refusal;
use taken::ways::run_rows;

// The run of accepted rows, with the present bodies as they are lent, and no layout table. The profile's lie by themselves until it ends.
fn checked_lent(
    from: &Runnable,
    asked: &Asked,
    registers: &mut Registers,
    present: &mut [u8],
) -> RunAnswer
    requires startable { Startable from.now.rows asked.now.variables.now asked.now.numbers.now (buffers_in registers.old) }
    requires is_known { IsKnown from.now }
    requires present_len { length present.old ≡ present_bodies_length }
    ensures run { checked_result result (buffers_in registers.new) present.new ≡ checked_end asked.now.budget (meaning (profile_of from.now.rows from.now.limits) (readings_of asked.now.variables.now asked.now.numbers.now) asked.now.budget) }
    ensures same_registers { SameRegisters registers.old registers.new }
{
    let mut own = [0u8; VARIABLE_BODIES_LENGTH];
    let layout = [0u16; 0];
    let end = run_rows::<Checked>(
        from,
        &layout,
        from.bodies,
        asked,
        registers,
        &mut own,
        &mut present[VARIABLE_BODIES_LENGTH..],
    );
    copy_front(&own, present);
    Ok(end)
}

// The lent present bodies must be as long as listed, as cells and state words must.
pub fn checked_taken(
    pair: Result<Pair, Refusal>,
    areas: &[u8],
    others: &[u8],
    bodies: &[u8],
    asked: &Asked,
    registers: &mut Registers,
    present: &mut [u8],
) -> RunAnswer
    requires { PairOf pair areas.now others.now bodies.now }
    ensures run { (prof lims : List ℕ) → PairIs pair prof lims areas.now others.now bodies.now
        → checked_result result (buffers_in registers.new) present.new ≡ checked_call (inputs prof lims asked.now.variables.now asked.now.numbers.now) asked.now.budget (buffers_in registers.old) present.old }
    ensures same_registers { SameRegisters registers.old registers.new }
{
    if present.len() != PRESENT_BODIES_LENGTH {
        return Err(Refusal::BadBuffer);
    }
    let admitted = run_refusal(pair, areas, bodies, asked, &registers.seen())?;
    let from = admitted.with_limits(others);
    checked_lent(&from, asked, registers, present)
}
