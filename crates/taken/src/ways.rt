// The run of accepted rows, in either way. What an earlier run left in lent memory does not stay.
ghost use Rattle.std.specs.Prelude.{◌≡◌, ◌++◌ as followed, Ok};
ghost use Rattle.lingua.specs.Run.{run as meaning, last_state, open_calls};
ghost use Rattle.lingua.specs.Store.{present_in};
ghost use Rattle.lingua.specs.Trees.{profile_of};
ghost use Rattle.lingua.specs.Calls.{readings_of, ran, run_result};
ghost use Rattle.frames.specs.Ways.{checked as is_checked};
ghost use Rattle.taken.specs.Given.{IsKnown, buffers_in, SameRegisters};
ghost use Rattle.taken.specs.Ways.{Startable, Lends};

use crate::given::{Asked, Registers, Runnable};
use frames::context::Context;
use frames::way::Way;
use lingua::RunEnd;
use lingua::sizes::LIMIT_CELLS_LENGTH;
use run::memory::Memory;
use run::start::start;
use whole_run::whole::run;

// The profile's present bodies lie by themselves, since an open call's come to the front of the area behind them. The erased run is lent no
// room for either, and handed no body: its types' are an empty slice. The checked run is lent no layout table.
pub fn run_rows<W: Way>(
    from: &Runnable,
    layout: &[u16],
    types: &[u8],
    asked: &Asked,
    registers: &mut Registers,
    own: &mut [u8],
    area: &mut [u8],
) -> RunEnd
    requires startable { Startable from.now.rows asked.now.variables.now asked.now.numbers.now (buffers_in registers.old) }
    requires is_known { IsKnown from.now }
    requires lends { Lends W.way from.now.rows from.now.limits layout.now types.now own.old area.old }
    ensures run { run_result (Ok result) (buffers_in registers.new) ≡ ran asked.now.budget (meaning (profile_of from.now.rows from.now.limits) (readings_of asked.now.variables.now asked.now.numbers.now) asked.now.budget) }
    ensures present { W.way ≡ is_checked → followed own.new area.new ≡ present_in (last_state (meaning (profile_of from.now.rows from.now.limits) (readings_of asked.now.variables.now asked.now.numbers.now) asked.now.budget)).store (open_calls (meaning (profile_of from.now.rows from.now.limits) (readings_of asked.now.variables.now asked.now.numbers.now) asked.now.budget)) }
    ensures same_registers { SameRegisters registers.old registers.new }
{
    let rows = &from.rows;
    let mut kept = [0i64; LIMIT_CELLS_LENGTH];
    registers.open_cells.fill(0);
    registers.open_states.fill(0);
    area.fill(0);
    W::begin_bodies(rows, rows.declarations(), types, &mut *own);
    start(
        rows,
        &from.limits,
        from.owners,
        &mut kept,
        &mut *registers.cells,
        &mut *registers.states,
    );
    let context = Context {
        rows,
        layout,
        limits: &kept,
    };
    let mut memory = Memory {
        bodies: own,
        cells: &mut *registers.cells,
        states: &mut *registers.states,
    };
    let mut open = Memory {
        bodies: area,
        cells: &mut *registers.open_cells,
        states: &mut *registers.open_states,
    };
    run::<W>(
        &context,
        types,
        &mut memory,
        &mut open,
        asked.variables,
        asked.numbers,
        asked.budget,
    )
}
