// The erased run as a public call (document 01: chair run). It fills the layout table (sheet) itself, whatever that held; a refusal, 17
// included, leaves all lent memory as it was.
ghost use Rattle.std.specs.Prelude.{◌≡◌};
ghost use Rattle.lingua.specs.Inputs.{inputs, buffers};
ghost use Rattle.lingua.specs.Calls.{erased_call, erased_result};

use lingua::RunAnswer;
use lingua::sizes::{AREA_BYTES, AREAS_LENGTH, TYPE_BODIES_LENGTH};
use pair::take_pair;
use taken::given::{Asked, Registers};
use taken_erased::erased_run::erased_taken;

pub fn run_erased(
    profile: &[u8],
    limits: &[u8],
    who: &[u16],
    numbers: &[i64],
    budget: u16,
    cells: &mut [i64],
    states: &mut [u16],
    open_cells: &mut [i64],
    open_states: &mut [u16],
    layout: &mut [u16],
) -> RunAnswer
    ensures { erased_result result (buffers cells.new states.new open_cells.new open_states.new) layout.new
        ≡ erased_call (inputs profile.now limits.now who.now numbers.now) budget (buffers cells.old states.old open_cells.old open_states.old) layout.old }
{
    // Each call begins with these lines: what is taken lies in areas of the call's own, and a function that was lent them would be handed as much.
    let mut areas = [0u8; AREAS_LENGTH];
    let mut others = [0u8; AREA_BYTES];
    let mut types = [0u8; TYPE_BODIES_LENGTH];
    let pair = take_pair(profile, limits, &mut areas, &mut others, &mut types);
    let asked = Asked {
        variables: who,
        numbers,
        budget,
    };
    let mut registers = Registers {
        cells,
        states,
        open_cells,
        open_states,
    };
    erased_taken(
        pair,
        &areas,
        &others,
        &types,
        &asked,
        &mut registers,
        layout,
    )
}
