// A variable's part of the cells takes a value.
ghost use Rattle.std.specs.Prelude.{◌≡◌, ◌++◌, ◌+◌, ◌*◌, ◌<◌, ◌≤◌, length, take, drop};
ghost use Rattle.std.proofs.Math.Seq.{paste};
ghost use Rattle.lingua.specs.Numbers.{body_cells};
ghost use Rattle.lingua.specs.Store.{flag_place, fill_at};

use crate::copies::copy;
use crate::words::set_filled;
use lingua::sizes::BODY_CELLS;

// A value's cells to the place of variable n's, and its filled flag. What lies past them stays: where a value has as many cells as the one before,
// it is zero from the start of the run.
pub fn put(cells: &mut [i64], states: &mut [u16], n: usize, value: &[i64], width: usize)
    requires body_cells_in_bounds { body_cells * n + body_cells ≤ length cells.old }
    requires n_in_bounds { flag_place n < length states.old }
    requires width_le_body_cells { (width ≤ body_cells) × (width ≤ length value.now) }
    ensures cells_after { cells.new ≡ take (body_cells * n) cells.old ++ (paste (take body_cells (drop (body_cells * n) cells.old)) 0 value.now width ++ drop (body_cells * n + body_cells) cells.old) }
    ensures states_after { states.new ≡ fill_at states.old n }
{
    let at = BODY_CELLS * n;
    let end = at + BODY_CELLS;
    copy(value, 0, width, &mut cells[at..end]);
    set_filled(states, n);
}
