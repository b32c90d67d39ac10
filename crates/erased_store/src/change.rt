// Yoke change: the value that the variable has must satisfy the new yoke, which is then noted in its state word. Its row is of the scope that
// the store is of. Nothing but state words is written.
ghost use Rattle.std.specs.Prelude.{List, [], ℕ, ◌+◌, ◌*◌, ◌≤◌, length};
ghost use Rattle.lingua.specs.Faults.{number_of};
ghost use Rattle.lingua.specs.Numbers.{body_cells, expression_section};
ghost use Rattle.lingua.specs.Store.{Variable, yoke_changed};
ghost use Rattle.lingua.specs.Rows.{table_count};
ghost use Rattle.lingua.specs.Run.{Profile};
ghost use Rattle.lingua.specs.Trees.{yoke_tree};
ghost use Rattle.run.specs.Reached.{lent, Settles};
ghost use Rattle.erased_row.specs.Meaning.{Running, HasRunning};
ghost use Rattle.erased_store.specs.Meaning.{YokeRow};

use crate::holds::yoke_holds;
use decoder::rows::Rows;
use lingua::errors::Error;
use run::memory::Seen;
use run::words::set_yoke;

pub fn change_yoke(
    rows: &Rows,
    layout: &[u16],
    limits: &[i64],
    cells: &[i64],
    states: &mut [u16],
    n: usize,
    y: u16,
    stack: &mut [i64],
) -> Result<(), Error>
    requires has_running { HasRunning rows.now layout.now limits.now (lent cells.now states.old []) (λ a. YokeRow rows.now a n y) }
    requires y_le_count { y ≤ table_count rows.now expression_section }
    requires count_in_bounds { body_cells * (table_count rows.now expression_section + 1) ≤ length stack.old }
    ensures { (p : Profile) (a : ℕ) (vs : List Variable) → Running p a rows.now layout.now limits.now (lent cells.now states.old []) vs → YokeRow rows.now a n y
        → Settles (number_of result) (Running p a rows.now layout.now limits.now) (lent cells.now states.old []) (lent cells.now states.new [])
        (yoke_changed vs n (yoke_tree rows.now y)) }
{
    let none = [0u8; 0];
    let seen = Seen {
        bodies: &none,
        cells,
        states: &*states,
    };
    yoke_holds(rows, layout, &seen, n, y as usize, stack)?;
    set_yoke(states, n, y);
    Ok(())
}
