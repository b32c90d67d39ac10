// Yoke change: the value that the variable has must satisfy the new yoke, which is then noted in its state word. Nothing else is written, and
// so the state words alone are lent for it.
ghost use Rattle.std.specs.Prelude.{List, ◌+◌, ◌*◌, ◌<◌, ◌≤◌, length};
ghost use Rattle.lingua.specs.Numbers.{body_cells, expression_section};
ghost use Rattle.lingua.specs.Rows.{table_count};
ghost use Rattle.lingua.specs.Faults.{number_of};
ghost use Rattle.lingua.specs.Store.{Variable, yoke_changed};
ghost use Rattle.lingua.specs.Trees.{yoke_tree};
ghost use Rattle.run.specs.Reached.{lent};
ghost use Rattle.checked_store.specs.Meaning.{Running, HasRunning, Assigns};

use crate::holds::yoke_holds;
use decoder::rows::Rows;
use lingua::errors::Error;
use run::memory::Seen;
use run::words::set_yoke;

pub fn change_yoke(
    rows: &Rows,
    limits: &[i64],
    bodies: &[u8],
    cells: &[i64],
    states: &mut [u16],
    n: usize,
    y: u16,
    stack: &mut [i64],
) -> Result<(), Error>
    requires has_running { HasRunning rows.now limits.now (lent cells.now states.old bodies.now) n }
    requires y_le_count { y ≤ table_count rows.now expression_section }
    requires y_in_bounds { body_cells * (y + 1) ≤ length stack.old }
    ensures { (vs : List Variable) → Running rows.now limits.now (lent cells.now states.old bodies.now) vs → n < length vs
        → Assigns (number_of result) rows.now limits.now (lent cells.now states.old bodies.now) (lent cells.now states.new bodies.now) (yoke_changed vs n (yoke_tree rows.now y)) }
{
    let seen = Seen {
        bodies,
        cells,
        states: &*states,
    };
    yoke_holds(rows, &seen, n, usize::from(y), stack)?;
    set_yoke(states, n, y);
    Ok(())
}
