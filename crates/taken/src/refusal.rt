// What every run asks before it starts: its buffers' lengths, both files, and readings for number variables.
ghost use Rattle.std.specs.Prelude.{◌≡◌, List, ℕ};
ghost use Rattle.lingua.specs.Inputs.{inputs};
ghost use Rattle.lingua.specs.Refusal.{run_fits};
ghost use Rattle.pair.specs.Pair.{PairIs};
ghost use Rattle.taken.specs.Given.{buffers_seen};
ghost use Rattle.taken.specs.Taken.{PairOf, RunIs};

use crate::given::{Admitted, Asked, SeenRegisters};
use decoder::rows::Rows;
use lingua::errors::Refusal;
use lingua::sizes::{CELLS_LENGTH, OPEN_CELLS_LENGTH, OPEN_STATES_LENGTH, STATES_LENGTH};
use pair::Pair;
use profile::agreement::reading_wrong;

// Buffers as long as listed, and a number for each variable that is read.
#[tactic(auto, using(std::proofs::lemmas::Bool::Decides::nat_tests), unfolding(lingua::specs::Refusal::run_fits))]
fn buffers_fit(asked: &Asked, registers: &SeenRegisters) -> bool
    ensures { (prof lims : List ℕ) → result ≡ run_fits (inputs prof lims asked.now.variables.now asked.now.numbers.now) (buffers_seen registers.now) }
{
    asked.variables.len() == asked.numbers.len()
        && registers.cells.len() == CELLS_LENGTH
        && registers.states.len() == STATES_LENGTH
        && registers.open_cells.len() == OPEN_CELLS_LENGTH
        && registers.open_states.len() == OPEN_STATES_LENGTH
}

// The lowest rule of 1 to 16 that applies to a run of the taken pair, or what it is given where none does: all but the limits' rows, which
// need not be at hand.
pub fn run_refusal<'a>(
    pair: Result<Pair, Refusal>,
    areas: &'a [u8],
    bodies: &'a [u8],
    asked: &Asked,
    registers: &SeenRegisters,
) -> Result<Admitted<'a>, Refusal>
    requires { (others : List ℕ) × PairOf pair areas.now others bodies.now }
    ensures { (prof lims others : List ℕ) → PairIs pair prof lims areas.now others bodies.now → RunIs result (inputs prof lims asked.now.variables.now asked.now.numbers.now) (buffers_seen registers.now) others }
{
    if !buffers_fit(asked, registers) {
        return Err(Refusal::BadBuffer);
    }
    let taken = pair?;
    let rows = Rows::with(&areas[..taken.profile.length], taken.profile.tables);
    if reading_wrong(&rows, bodies, asked.variables) {
        return Err(Refusal::BadReading);
    }
    let limits = taken.limits;
    let owners = taken.owners;
    Ok(Admitted {
        rows,
        limits,
        owners,
        bodies,
    })
}
