// The variables' lines of a pair of files that was taken.
ghost use Rattle.std.specs.Prelude.{◌≡◌, List, ℕ, take, Ok};
ghost use Rattle.lingua.specs.Store.{Variable};
ghost use Rattle.pair.specs.declared.Pair.{Pair};
ghost use Rattle.pair.specs.Pair.{PairIs};
ghost use Rattle.taken.specs.Taken.{PairOf};
ghost use Rattle.text.specs.Appended.{Appended};
ghost use Rattle.report.specs.Memory.{Left, HasLeft, variables_text};

use crate::lines::put_lines;
use decoder::rows::Rows;
use lingua::errors::Refusal;
use pair::Pair;
use text::page::Page;

// Nothing where a rule refuses the files, else the lines of their variables, which a run left in the lent memory.
pub(crate) fn put_variables(
    pair: Result<Pair, Refusal>,
    areas: &[u8],
    cells: &[i64],
    states: &[u16],
    bodies: &[u8],
    page: &mut Page<'_>,
)
    requires by_index { (others : List ℕ) × ((types : List ℕ) × PairOf pair areas.now others types) }
    requires has_left { (t : Pair) → pair ≡ Ok t → HasLeft (take t.profile.length areas.now) bodies.now cells.now states.now }
    ensures { (prof lims others types : List ℕ) (vs : List Variable) → PairIs pair prof lims areas.now others types → ((t : Pair) → pair ≡ Ok t → Left (take t.profile.length areas.now) bodies.now cells.now states.now vs)
        → Appended page.old (variables_text prof lims cells.now states.now vs) page.new }
{
    if let Ok(taken) = pair {
        let rows = Rows::with(&areas[..taken.profile.length], taken.profile.tables);
        put_lines(&rows, cells, states, bodies, page);
    }
}
