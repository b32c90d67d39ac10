// The checked run as a public call (document 01: desk run). Any bytes and any buffers may be handed in; a refusal leaves all lent memory as
// it was. A record may gain or lose an attribute while the run goes on, so the present bodies are handed out with the cells: the profile's,
// then those of the calls that are open where the budget ran out.
ghost use Rattle.std.specs.Prelude.{◌≡◌};
ghost use Rattle.lingua.specs.Inputs.{inputs, buffers};
ghost use Rattle.lingua.specs.Calls.{checked_result, checked_call};
ghost use Rattle.safety.specs.TwoRuns.{CheckedHolds};

use lingua::RunAnswer;
use lingua::sizes::{AREA_BYTES, AREAS_LENGTH, TYPE_BODIES_LENGTH};
use pair::take_pair;
use taken::given::{Asked, Registers};
use taken_checked::checked_run::checked_taken;

pub fn run_checked(
    profile: &[u8],
    limits: &[u8],
    who: &[u16],
    numbers: &[i64],
    budget: u16,
    cells: &mut [i64],
    states: &mut [u16],
    open_cells: &mut [i64],
    open_states: &mut [u16],
    bodies: &mut [u8],
) -> RunAnswer
    ensures bodies_after { checked_result result (buffers cells.new states.new open_cells.new open_states.new) bodies.new
        ≡ checked_call (inputs profile.now limits.now who.now numbers.now) budget (buffers cells.old states.old open_cells.old open_states.old) bodies.old }
    ensures checked_holds { CheckedHolds (inputs profile.now limits.now who.now numbers.now) (buffers cells.old states.old open_cells.old open_states.old) bodies.old (checked_result result (buffers cells.new states.new open_cells.new open_states.new) bodies.new) }
{
    // Each call begins with these lines: what is taken lies in areas of the call's own, and a function that was lent them would be handed as much.
    let mut areas = [0u8; AREAS_LENGTH];
    let mut others = [0u8; AREA_BYTES];
    let mut types = [0u8; TYPE_BODIES_LENGTH];
    let pair = take_pair(profile, limits, &mut areas, &mut others, &mut types);
    let asked = Asked {
        variables: who,
        numbers,
        budget,
    };
    let mut registers = Registers {
        cells,
        states,
        open_cells,
        open_states,
    };
    checked_taken(
        pair,
        &areas,
        &others,
        &types,
        &asked,
        &mut registers,
        bodies,
    )
}
