// What the walk does at one row: the body of a variable, and the row's note in the layout table.
ghost use Rattle.std.specs.Prelude.{◌+◌, ◌*◌, ◌≤◌, ◌<◌, length};
ghost use Rattle.std.proofs.Math.Option.{Option};
ghost use Rattle.lingua.specs.Rows.{pair_count};
ghost use Rattle.lingua.specs.Body.{Body};
ghost use Rattle.lingua.specs.Expression.{current};
ghost use Rattle.lingua.specs.Typing.{Bodies, check};
ghost use Rattle.body.specs.Encode.{Holds, Held};
ghost use Rattle.profile.specs.Variables.{VariablesKnown};
ghost use Rattle.typing.specs.Check.{HeldIf, HoldsIf, Noted, Gives, variable_bodies};

use crate::findings::Found;
use body::walk::measure_body;
use decoder::rows::Rows;
use decoder::tables::Table;
use lingua::sizes::BODY_BYTES;
use profile::declarations::declared_body;

// The declared body of a variable of a scope, whose table is given.
pub fn variable_body(rows: &Rows, t: Table, bodies: &[u8], n: usize) -> [u8; BODY_BYTES]
    requires variables_known { VariablesKnown rows.now t bodies.now }
    requires n_bound { n < pair_count rows.now t.section }
    ensures { Holds result (variable_bodies rows.now t.section n) }
{
    declared_body(rows, t, n, bodies)
}

// A row's result has so many cells; beside them stands the row's second number.
#[inline(never)]
pub fn note_row(row: usize, body: [u8; BODY_BYTES], second: usize, layout: &mut [u16])
    requires held { Held body }
    requires second_bound { second ≤ 64 }
    requires row_in_bounds { 2 * row + 1 < length layout.old }
    ensures { Noted row body second layout.old layout.new }
{
    let m = measure_body(body);
    layout[2 * row] = m.cells as u16;
    layout[2 * row + 1] = second as u16;
}

// A current value without a body has no cells, and its row is not at fault.
pub fn note_current(
    row: usize,
    body: Option<[u8; BODY_BYTES]>,
    layout: &mut [u16],
) -> Found<[u8; BODY_BYTES]>
    requires held { HeldIf body }
    requires row_in_bounds { 2 * row + 1 < length layout.old }
    ensures { (vars : Bodies) (b : Option Body) → HoldsIf body b → Gives result layout.old layout.new (check (current row) vars b) }
{
    let current = body.ok_or(None)?;
    note_row(row, current, 0, layout);
    Ok(current)
}
