// The variables' lines, from the memory that a run leaves.
ghost use Rattle.std.specs.Prelude.{◌≡◌, List, ℕ, ◌<◌, ℤ, length};
ghost use Rattle.lingua.specs.Numbers.{declaration_section};
ghost use Rattle.lingua.specs.Body.{size};
ghost use Rattle.lingua.specs.Rows.{pair_count};
ghost use Rattle.lingua.specs.Store.{Variable, variable_at, present_body};
ghost use Rattle.checked_row.specs.Meaning.{Stored};
ghost use Rattle.text.specs.Appended.{Appended};
ghost use Rattle.report.specs.Memory.{HasBody, Left, HasLeft, memory_line, memory_lines};

use body::flat;
use body::walk::measure_body;
use decoder::fields::bytes_at;
use decoder::rows::Rows;
use lingua::sizes::BODY_CELLS;
use run::words::is_filled;
use text::page::Page;
use text::report::put_variable_line;

// How many cells the present body of variable d takes.
fn present_cells(bodies: &[u8], d: usize) -> usize
    requires { HasBody bodies.now d }
    ensures { (cells : List ℤ) (states : List ℕ) (vs : List Variable) → Stored bodies.now cells states vs → d < length vs → result ≡ size (present_body (variable_at vs d)) }
{
    let body = flat::taken(bodies, d);
    let m = measure_body(body);
    m.cells
}

// The line of variable d.
fn put_line(
    rows: &Rows,
    d: usize,
    cells: &[i64],
    states: &[u16],
    bodies: &[u8],
    page: &mut Page<'_>,
)
    requires d_bound { d < pair_count rows.now declaration_section }
    requires has_left { HasLeft rows.now bodies.now cells.now states.now }
    ensures { (vs : List Variable) → Left rows.now bodies.now cells.now states.now vs → Appended page.old (memory_line rows.now cells.now states.now vs d) page.new }
{
    let t = rows.declarations();
    let name = bytes_at(rows.bytes(), t.start + 2 * d);
    let from = BODY_CELLS * d;
    let to = from + present_cells(bodies, d);
    let content = is_filled(states, d).then_some(&cells[from..to]);
    put_variable_line(page, name, content)
}

// The lines of all variables.
pub(crate) fn put_lines(
    rows: &Rows,
    cells: &[i64],
    states: &[u16],
    bodies: &[u8],
    page: &mut Page<'_>,
)
    requires has_left { HasLeft rows.now bodies.now cells.now states.now }
    ensures { (vs : List Variable) → Left rows.now bodies.now cells.now states.now vs → Appended page.old (memory_lines rows.now cells.now states.now vs 0 (pair_count rows.now declaration_section)) page.new }
{
    let t = rows.declarations();
    for d in 0..t.count / 2 {
        put_line(rows, d, cells, states, bodies, page);
    }
}
