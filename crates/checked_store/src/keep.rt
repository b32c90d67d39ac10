// A store in the caller's memory: the variable's cells, its filled flag and its present body.
ghost use Rattle.run.specs.Lending.{lent_in, SameSlices};
ghost use Rattle.checked_store.specs.Meaning.{Storable, StoresValue};

use body::flat;
use body::walk::RECORD;
use cells::parts::clear;
use checked_row::answer::CurrentValue;
use lingua::sizes::BODY_CELLS;
use run::memory::Memory;
use run::part::put;

// Variable n takes a value of a body that is coherent with its present one. Only a record's may be another than before: what lay behind its
// cells is zero again, and its body is kept.
pub fn keep(memory: &mut Memory, n: usize, value: &CurrentValue, width: usize)
    requires { Storable (lent_in memory.old) n value.now.cells.now width }
    ensures stores_value { StoresValue (lent_in memory.old) (lent_in memory.new) n value.now.cells.now width value.now.body }
    ensures same_slices { SameSlices memory.old memory.new }
{
    put(memory.cells, memory.states, n, value.cells, width);
    if value.body[0] == RECORD {
        clear(memory.cells, BODY_CELLS * n + width, BODY_CELLS - width);
        flat::keep(memory.bodies, n, value.body);
    }
}
