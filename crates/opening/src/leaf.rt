// Instructions that no other is part of.
ghost use Rattle.std.specs.Prelude.{◌≡◌, ℕ, length};
ghost use Rattle.lingua.specs.Expression.{skip as skipTree};
ghost use Rattle.run.specs.Reached.{Going, Passes};
ghost use Rattle.run.specs.Lending.{lent_in, SameSlices};
ghost use Rattle.frames.specs.Lending.{context_of};
ghost use Rattle.opening.specs.Meaning.{AskedLeaf, AssignAt, SetYokeAt, ExecutesLeaf};

use crate::setting::Setting;
use frames::way::Way;
use run::memory::Memory;
use run::steps::{Status, settled, stepped};

pub fn skip(m: Status) -> Status
    requires { Going m }
    ensures { (row : ℕ) → Passes m result (skipTree row) }
{
    if m.error.is_some() {
        return m;
    }
    stepped(m)
}

// Variable n takes what expression row e gives. It is no part of the walk's frame: drawn in, it takes a kilobyte at each of the walk's levels as
// the toolchain's own compiler builds it.
pub fn assignment<W: Way>(
    row: usize,
    n: usize,
    e: usize,
    setting: &Setting,
    memory: &mut Memory,
    m: Status,
    stack: &mut [i64],
) -> Status
    requires asked_leaf { AskedLeaf row W.way (context_of setting.now.context) (lent_in memory.old) m (length stack.old) }
    requires assign_at { AssignAt setting.now.context.rows.now row n e }
    ensures executes { ExecutesLeaf row W.way (context_of setting.now.context) (lent_in memory.old) (lent_in memory.new) m result }
    ensures same_slices { SameSlices memory.old memory.new }
{
    if m.error.is_some() {
        return m;
    }
    let taken = stepped(m);
    if taken.out {
        return taken;
    }
    let stored = W::assign(&setting.context, memory, n, e, stack);
    settled(taken, stored, row as u16)
}

// Variable n's yoke becomes y.
pub fn yoke_change<W: Way>(
    row: usize,
    n: usize,
    y: usize,
    setting: &Setting,
    memory: &mut Memory,
    m: Status,
    stack: &mut [i64],
) -> Status
    requires asked_leaf { AskedLeaf row W.way (context_of setting.now.context) (lent_in memory.old) m (length stack.old) }
    requires set_yoke_at { SetYokeAt setting.now.context.rows.now row n y }
    ensures executes { ExecutesLeaf row W.way (context_of setting.now.context) (lent_in memory.old) (lent_in memory.new) m result }
    ensures cells_same { memory.new.cells.now ≡ memory.old.cells.now }
    ensures bodies_same { memory.new.bodies.now ≡ memory.old.bodies.now }
    ensures same_slices { SameSlices memory.old memory.new }
{
    if m.error.is_some() {
        return m;
    }
    let taken = stepped(m);
    if taken.out {
        return taken;
    }
    let changed = W::change_yoke(&setting.context, memory, n, y as u16, stack);
    settled(taken, changed, row as u16)
}
