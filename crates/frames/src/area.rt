// The area for calls: where a call stays open, its variables are kept at the area's front.
ghost use Rattle.std.specs.Prelude.{◌≡◌, ◌≤◌, length};
ghost use Rattle.run.specs.Reached.{onto};
ghost use Rattle.run.specs.Lending.{SameSlices};

use run::memory::{Memory, Seen};

// One part of them, to the front.
fn keep<T: Copy>(from: &[T], area: &mut [T])
    requires { length from.now ≤ length area.old }
    ensures { area.new ≡ onto from.now area.old }
{
    area[..from.len()].copy_from_slice(from);
}

// A call's variables; the erased run has no bodies to keep.
pub fn keep_open(own: &Seen, area: &mut Memory)
    requires bodies_in_bounds { length own.now.bodies.now ≤ length area.old.bodies.now }
    requires cells_in_bounds { length own.now.cells.now ≤ length area.old.cells.now }
    requires states_in_bounds { length own.now.states.now ≤ length area.old.states.now }
    ensures open_bodies_after { area.new.bodies.now ≡ onto own.now.bodies.now area.old.bodies.now }
    ensures open_cells_after { area.new.cells.now ≡ onto own.now.cells.now area.old.cells.now }
    ensures open_states_after { area.new.states.now ≡ onto own.now.states.now area.old.states.now }
    ensures same_slices { SameSlices area.old area.new }
{
    keep(own.bodies, area.bodies);
    keep(own.cells, area.cells);
    keep(own.states, area.states);
}
