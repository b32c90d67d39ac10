// Instructions by their rows, the row number falling at each call, the same for both ways to run. A loop's turns each take a
// step, so the steps that are left bound them. A procedure's body is any row again, but the area for calls has become shorter.
ghost use Rattle.std.specs.Prelude.{length};
ghost use Rattle.run.specs.Lending.{lent_in, SameSlices};
ghost use Rattle.run.specs.Reached.{lent};
ghost use Rattle.opening.specs.Meaning.{setting_of, CallAt};
ghost use Rattle.opening.specs.Calls.{alone, ZerosBy};
ghost use Rattle.walk.specs.Meaning.{Asked, BranchAt, LoopAt, HandleAt, Executes, Opening, Opens};

use decoder::decode::InstructionRow;
use frames::context::Context;
use frames::way::Way;
use lingua::errors::Error;
use lingua::sizes::{CELLS_LENGTH, LIMIT_CELLS_LENGTH, STATES_LENGTH, VARIABLE_BODIES_LENGTH};
use opening::call::{enter, leave};
use opening::leaf::{assignment, skip, yoke_change};
use opening::setting::{CallRow, Setting};
use profile::row::instruction_row;
use run::memory::Memory;
use run::steps::{Status, cleared, has_error, settled, stepped};

// The instruction of a row.
#[cycle(instructions)]
pub fn exec<W: Way>(
    row: usize,
    setting: &Setting,
    memory: &mut Memory,
    area: &mut Memory,
    m: Status,
    stack: &mut [i64],
) -> Status
    requires { Asked row W.way (setting_of setting.now) (lent_in memory.old) (lent_in area.old) m (length stack.old) }
    ensures executes { Executes row W.way (setting_of setting.now) (lent_in memory.old) (lent_in area.old) (lent_in memory.new) (lent_in area.new) m result }
    ensures same_slices { SameSlices memory.old memory.new × SameSlices area.old area.new }
{
    let says = instruction_row(setting.context.rows, row);
    match says {
        InstructionRow::Skip => skip(m),
        InstructionRow::Assign(n, e) => assignment::<W>(row, n, e, setting, memory, m, stack),
        InstructionRow::SetYoke(n, y) => yoke_change::<W>(row, n, y, setting, memory, m, stack),
        InstructionRow::Sequence(i, j) => {
            let first = exec::<W>(i, setting, memory, area, m, &mut *stack);
            if first.out {
                return first;
            }
            exec::<W>(j, setting, memory, area, first, stack)
        }
        InstructionRow::Branch(e, i, j) => branch::<W>(
            row, e, i, j, setting, memory, area, m, stack,
        ),
        InstructionRow::Loop(e, i) => turns::<W>(row, e, i, setting, memory, area, m, stack),
        InstructionRow::Handle(n, i) => handle::<W>(row, n, i, setting, memory, area, m, stack),
        // The call stands here twice, so that a compiler keeps it a function of its own, and its arrays out of each level's frame.
        InstructionRow::Call(procedure, values, references) => {
            let of = CallRow {
                row,
                procedure,
                values,
                references,
            };
            if m.out {
                return call::<W>(of, setting, memory, area, m, stack);
            }
            call::<W>(of, setting, memory, area, m, stack)
        }
    }
}

// One of two instructions, by a test.
#[cycle(instructions)]
fn branch<W: Way>(
    row: usize,
    e: usize,
    i: usize,
    j: usize,
    setting: &Setting,
    memory: &mut Memory,
    area: &mut Memory,
    m: Status,
    stack: &mut [i64],
) -> Status
    requires asked { Asked row W.way (setting_of setting.now) (lent_in memory.old) (lent_in area.old) m (length stack.old) }
    requires branch_at { BranchAt setting.now.context.rows.now row e i j }
    ensures executes { Executes row W.way (setting_of setting.now) (lent_in memory.old) (lent_in area.old) (lent_in memory.new) (lent_in area.new) m result }
    ensures same_slices { SameSlices memory.old memory.new × SameSlices area.old area.new }
{
    if m.error.is_some() {
        return m;
    }
    let taken = stepped(m);
    if taken.out {
        return taken;
    }
    let told = W::test(&setting.context, &memory.seen(), e, &mut *stack);
    match told {
        Ok(true) => exec::<W>(i, setting, memory, area, taken, stack),
        Ok(false) => exec::<W>(j, setting, memory, area, taken, stack),
        Err(error) => settled(taken, Err(error), row as u16),
    }
}

// Each turn's test takes a step, the last one too: the steps that are left bound the turns, and the `while` counts nothing.
#[cycle(instructions)]
fn turns<W: Way>(
    row: usize,
    e: usize,
    i: usize,
    setting: &Setting,
    memory: &mut Memory,
    area: &mut Memory,
    m: Status,
    stack: &mut [i64],
) -> Status
    requires asked { Asked row W.way (setting_of setting.now) (lent_in memory.old) (lent_in area.old) m (length stack.old) }
    requires loop_at { LoopAt setting.now.context.rows.now row e i }
    ensures executes { Executes row W.way (setting_of setting.now) (lent_in memory.old) (lent_in area.old) (lent_in memory.new) (lent_in area.new) m result }
    ensures same_slices { SameSlices memory.old memory.new × SameSlices area.old area.new }
{
    let mut at = m;
    while at.error.is_none() {
        let taken = stepped(at);
        if taken.out {
            return taken;
        }
        let told = W::test(&setting.context, &memory.seen(), e, &mut *stack);
        match told {
            Ok(true) => {}
            Ok(false) => return taken,
            Err(error) => return settled(taken, Err(error), row as u16),
        }
        at = exec::<W>(i, setting, memory, area, taken, &mut *stack);
        if at.out {
            return at;
        }
    }
    at
}

// A handler takes its step whether or not an error is recorded.
#[cycle(instructions)]
fn handle<W: Way>(
    row: usize,
    n: usize,
    i: usize,
    setting: &Setting,
    memory: &mut Memory,
    area: &mut Memory,
    m: Status,
    stack: &mut [i64],
) -> Status
    requires asked { Asked row W.way (setting_of setting.now) (lent_in memory.old) (lent_in area.old) m (length stack.old) }
    requires handle_at { HandleAt setting.now.context.rows.now row n i }
    ensures executes { Executes row W.way (setting_of setting.now) (lent_in memory.old) (lent_in area.old) (lent_in memory.new) (lent_in area.new) m result }
    ensures same_slices { SameSlices memory.old memory.new × SameSlices area.old area.new }
{
    let taken = stepped(m);
    if taken.out {
        return taken;
    }
    if !has_error(taken, n) {
        return taken;
    }
    exec::<W>(i, setting, memory, area, cleared(taken), stack)
}

// A call takes its step; where no more may be open, it is too deep before any copy.
#[cycle(instructions)]
fn call<W: Way>(
    of: CallRow,
    setting: &Setting,
    memory: &mut Memory,
    area: &mut Memory,
    m: Status,
    stack: &mut [i64],
) -> Status
    requires asked { Asked of.row W.way (setting_of setting.now) (lent_in memory.old) (lent_in area.old) m (length stack.old) }
    requires call_at { CallAt setting.now.context.rows.now of.row of.procedure of.values of.references }
    ensures executes { Executes of.row W.way (setting_of setting.now) (lent_in memory.old) (lent_in area.old) (lent_in memory.new) (lent_in area.new) m result }
    ensures same_slices { SameSlices memory.old memory.new × SameSlices area.old area.new }
{
    if m.error.is_some() {
        return m;
    }
    let taken = stepped(m);
    if taken.out {
        return taken;
    }
    if area.cells.len() < CELLS_LENGTH {
        return settled(taken, Err(Error::TooDeep), of.row as u16);
    }
    let n = memory.bodies.len();
    let mut own_cells = [0i64; CELLS_LENGTH];
    let mut own_states = [0u16; STATES_LENGTH];
    let mut own_bodies = [0u8; VARIABLE_BODIES_LENGTH];
    let mut own = Memory {
        bodies: &mut own_bodies[..n],
        cells: &mut own_cells,
        states: &mut own_states,
    };
    opened::<W>(of, &mut own, setting, memory, area, taken, stack)
}

// Its variables are copied in, its body runs on them, and what was given by reference comes back, or they stay open.
#[cycle(instructions)]
#[inline(always)]
fn opened<W: Way>(
    of: CallRow,
    own: &mut Memory,
    setting: &Setting,
    memory: &mut Memory,
    area: &mut Memory,
    m: Status,
    stack: &mut [i64],
) -> Status
    requires opening { Opening of.row of.procedure of.values of.references W.way (setting_of setting.now) (lent_in memory.old) (lent_in area.old) m (length stack.old) }
    requires zeros { ZerosBy W.way (lent_in own.old) }
    ensures opens { Opens of.row of.procedure of.values of.references W.way (setting_of setting.now) (lent_in memory.old) (lent_in area.old) (lent_in memory.new) (lent_in area.new) m result }
    ensures same_slices { SameSlices memory.old memory.new × SameSlices area.old area.new }
{
    let entered = enter::<W>(of, setting, &memory.seen(), own, &mut *stack);
    if entered.is_err() {
        return settled(m, entered, of.row as u16);
    }
    let n = memory.bodies.len();
    let rows = setting.context.rows;
    let procedure = rows.procedure(of.procedure);
    let ended = body::<W>(
        procedure.body,
        setting,
        own,
        &mut area.bodies[n..],
        &mut area.cells[CELLS_LENGTH..],
        &mut area.states[STATES_LENGTH..],
        m,
        &mut *stack,
    );
    leave::<W>(of, setting, &own.seen(), memory, area, ended, stack)
}

// A procedure's body on its variables, which have no limits, with what is left of the area.
#[cycle(instructions)]
fn body<W: Way>(
    row: usize,
    setting: &Setting,
    own: &mut Memory,
    bodies: &mut [u8],
    cells: &mut [i64],
    states: &mut [u16],
    m: Status,
    stack: &mut [i64],
) -> Status
    requires { Asked row W.way (alone (setting_of setting.now)) (lent_in own.old) (lent cells.old states.old bodies.old) m (length stack.old) }
    ensures executes { Executes row W.way (alone (setting_of setting.now)) (lent_in own.old) (lent cells.old states.old bodies.old) (lent_in own.new) (lent cells.new states.new bodies.new) m result }
    ensures same_slices { SameSlices own.old own.new }
{
    let none = [0i64; LIMIT_CELLS_LENGTH];
    let inside = Setting {
        context: Context {
            limits: &none,
            ..setting.context
        },
        ..*setting
    };
    let mut rest = Memory {
        bodies,
        cells,
        states,
    };
    exec::<W>(row, &inside, own, &mut rest, m, stack)
}
