// A whole run on begun memory: the inputs, then the program, which is the last instruction row.
ghost use Rattle.lingua.specs.Calls.{readings_of};
ghost use Rattle.run.specs.Lending.{lent_in, SameSlices};
ghost use Rattle.whole_run.specs.Meaning.{setting_in, Begins, Readable, Runs};

use crate::inputs::take_readings;
use frames::context::Context;
use frames::way::Way;
use lingua::RunEnd;
use lingua::sizes::STACK_LENGTH;
use opening::setting::Setting;
use run::memory::Memory;
use run::steps::{ended, fresh};
use walk::exec::exec;

// Each level of an expression's tree has 64 cells of the operand stack: 260 KiB, which lie in a frame of their own, so that whoever calls this
// has them only while it runs.
#[inline(never)]
pub fn run<W: Way>(
    context: &Context,
    types: &[u8],
    memory: &mut Memory,
    area: &mut Memory,
    who: &[u16],
    numbers: &[i64],
    budget: u16,
) -> RunEnd
    requires begins { Begins W.way (setting_in context.now types.now) (lent_in memory.old) (lent_in area.old) }
    requires readable { Readable context.now.rows.now who.now numbers.now }
    ensures runs { Runs W.way (setting_in context.now types.now) (lent_in memory.old) (lent_in area.old) (lent_in memory.new) (lent_in area.new) (readings_of who.now numbers.now) budget result }
    ensures same_slices { SameSlices memory.old memory.new × SameSlices area.old area.new }
{
    let rows = context.rows;
    let setting = Setting {
        context: *context,
        types,
    };
    let mut stack = [0i64; STACK_LENGTH];
    let first = fresh(budget);
    let taken = take_readings::<W>(context, memory, who, numbers, first, &mut stack);
    let instructions = rows.instructions();
    let row = instructions.count - 1;
    let last = exec::<W>(row, &setting, memory, area, taken, &mut stack);
    ended(last, budget)
}
