// A call before and behind its body: its variables are begun and filled by the copies in; then what was given by reference comes back, or, out
// of budget, they stay in the area.
ghost use Rattle.std.specs.Prelude.{length};
ghost use Rattle.lingua.specs.Faults.{number_of};
ghost use Rattle.run.specs.Lending.{lent_in, seen_in, SameSlices};
ghost use Rattle.frames.specs.Lending.{context_of};
ghost use Rattle.opening.specs.Meaning.{setting_of};
ghost use Rattle.opening.specs.Calls.{Enters, Calling, ZerosBy, Leaving, Leaves};

use crate::setting::{CallRow, Setting};
use decoder::groups::given;
use frames::area::keep_open;
use frames::begin::begin;
use frames::context::Context;
use frames::copies::{copies_in, copies_out};
use frames::way::Way;
use lingua::errors::Error;
use lingua::sizes::LIMIT_CELLS_LENGTH;
use run::memory::{Memory, Seen};
use run::steps::Status;

// The procedure's variables begin, and take those that are given, values first; a procedure's variables have no limits.
pub fn enter<W: Way>(
    call: CallRow,
    setting: &Setting,
    memory: &Seen,
    own: &mut Memory,
    stack: &mut [i64],
) -> Result<(), Error>
    requires calling { Calling call.row call.procedure call.values call.references W.way (setting_of setting.now) (seen_in memory.now) (length stack.old) }
    requires zeros_by { ZerosBy W.way (lent_in own.old) }
    ensures enters { Enters call.row call.procedure call.values call.references W.way (setting_of setting.now) (seen_in memory.now) (lent_in own.new) (number_of result) }
    ensures same_slices { SameSlices own.old own.new }
{
    let none = [0i64; LIMIT_CELLS_LENGTH];
    let context = Context {
        limits: &none,
        ..setting.context
    };
    let rows = context.rows;
    let procedure = rows.procedure(call.procedure);
    let values = given(procedure.values);
    let references = given(procedure.references);
    let variables = rows.variables(call.procedure);
    begin::<W>(
        rows,
        variables,
        setting.types,
        &mut *own.states,
        &mut *own.bodies,
    );
    copies_in::<W>(&context, memory, call.values, values, 0, own, &mut *stack)?;
    copies_in::<W>(
        &context,
        memory,
        call.references,
        references,
        values,
        own,
        stack,
    )
}

// A body's end: its variables stay open where the run is out of budget, or those that were given by reference come back.
pub fn leave<W: Way>(
    call: CallRow,
    setting: &Setting,
    own: &Seen,
    memory: &mut Memory,
    area: &mut Memory,
    ended: Status,
    stack: &mut [i64],
) -> Status
    requires { Leaving call.row call.procedure call.references W.way (context_of setting.now.context) (seen_in own.now) (lent_in memory.old) (lent_in area.old) ended (length stack.old) }
    ensures leaves { Leaves call.row call.procedure call.references W.way (context_of setting.now.context) (seen_in own.now) (lent_in memory.old) (lent_in area.old) (lent_in memory.new) (lent_in area.new) ended result }
    ensures same_slices { SameSlices memory.old memory.new × SameSlices area.old area.new }
{
    if ended.out {
        keep_open(own, area);
        return ended;
    }
    let context = &setting.context;
    let rows = context.rows;
    let procedure = rows.procedure(call.procedure);
    let values = given(procedure.values);
    let references = given(procedure.references);
    copies_out::<W>(
        call.row as u16,
        context,
        own,
        call.references,
        references,
        values,
        memory,
        ended,
        stack,
    )
}
