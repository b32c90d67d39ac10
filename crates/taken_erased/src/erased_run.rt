// The erased run of a pair of files that was taken (document 01: chair run). It fills the layout table (sheet) itself, whatever that held; a
// refusal, 17 included, leaves all lent memory as it was.
ghost use Rattle.std.specs.Prelude.{◌≡◌, List, ℕ, length};
ghost use Rattle.lingua.specs.Numbers.{layout_length};
ghost use Rattle.lingua.specs.Run.{run as meaning};
ghost use Rattle.lingua.specs.Trees.{profile_of};
ghost use Rattle.lingua.specs.Inputs.{inputs};
ghost use Rattle.lingua.specs.Calls.{readings_of, ran, run_result, erased_call, erased_result};
ghost use Rattle.pair.specs.Pair.{PairIs};
ghost use Rattle.taken.specs.Given.{IsKnown, buffers_in, SameRegisters};
ghost use Rattle.taken.specs.Taken.{PairOf};
ghost use Rattle.taken.specs.Ways.{Startable, QuantitiesLimited, PassedRows, erased_rows};

use frames::erased_way::Erased;
use lingua::RunAnswer;
use lingua::errors::Refusal;
use lingua::sizes::LAYOUT_LENGTH;
use pair::Pair;
use taken::given::{Asked, Registers, Runnable};
use taken::refusal::run_refusal;
use taken::ways::run_rows;
use typecheck::whole::check_profile;

// The run of passed rows, with the layout table and no body.
fn passed_rows(
    from: &Runnable,
    layout: &[u16],
    asked: &Asked,
    registers: &mut Registers,
) -> RunAnswer
    requires startable { Startable from.now.rows asked.now.variables.now asked.now.numbers.now (buffers_in registers.old) }
    requires is_known { IsKnown from.now }
    requires passed_rows { PassedRows from.now.rows from.now.limits layout.now }
    requires quantities_limited { QuantitiesLimited from.now.rows from.now.limits }
    ensures run { run_result result (buffers_in registers.new) ≡ ran asked.now.budget (meaning (profile_of from.now.rows from.now.limits) (readings_of asked.now.variables.now asked.now.numbers.now) asked.now.budget) }
    ensures same_registers { SameRegisters registers.old registers.new }
{
    let types = [0u8; 0];
    let mut none = [0u8; 0];
    let mut no_area = [0u8; 0];
    Ok(run_rows::<Erased>(
        from,
        layout,
        &types,
        asked,
        registers,
        &mut none,
        &mut no_area,
    ))
}

// The type check works on a table of its own, which becomes the caller's once no rule applies any more: rule 17 leaves that as it was.
fn erased_rows(
    from: &Runnable,
    asked: &Asked,
    registers: &mut Registers,
    layout: &mut [u16],
) -> RunAnswer
    requires startable { Startable from.now.rows asked.now.variables.now asked.now.numbers.now (buffers_in registers.old) }
    requires is_known { IsKnown from.now }
    requires layout_len { length layout.old ≡ layout_length }
    requires quantities_limited { QuantitiesLimited from.now.rows from.now.limits }
    ensures run { erased_result result (buffers_in registers.new) layout.new ≡ erased_rows from.now.rows from.now.limits asked.now.variables.now asked.now.numbers.now asked.now.budget (buffers_in registers.old) layout.old }
    ensures same_registers { SameRegisters registers.old registers.new }
{
    let mut table = [0u16; LAYOUT_LENGTH];
    match check_profile(&from.rows, from.bodies, &mut table) {
        Ok(()) => {
            layout.copy_from_slice(&table);
            passed_rows(from, layout, asked, registers)
        }
        Err(_) => Err(Refusal::TypeErrorFound),
    }
}

// The lent layout table must be as long as listed, as cells and state words must.
pub fn erased_taken(
    pair: Result<Pair, Refusal>,
    areas: &[u8],
    others: &[u8],
    bodies: &[u8],
    asked: &Asked,
    registers: &mut Registers,
    layout: &mut [u16],
) -> RunAnswer
    requires { PairOf pair areas.now others.now bodies.now }
    ensures run { (prof lims : List ℕ) → PairIs pair prof lims areas.now others.now bodies.now
        → erased_result result (buffers_in registers.new) layout.new ≡ erased_call (inputs prof lims asked.now.variables.now asked.now.numbers.now) asked.now.budget (buffers_in registers.old) layout.old }
    ensures same_registers { SameRegisters registers.old registers.new }
{
    if layout.len() != LAYOUT_LENGTH {
        return Err(Refusal::BadBuffer);
    }
    let admitted = run_refusal(pair, areas, bodies, asked, &registers.seen())?;
    let from = admitted.with_limits(others);
    erased_rows(&from, asked, registers, layout)
}
