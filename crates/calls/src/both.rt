// Both runs of one profile, each on lent memory of its own: what document 01's third demand speaks of. The files are taken once.
ghost use Rattle.lingua.specs.Inputs.{inputs, buffers};
ghost use Rattle.calls.specs.Both.{BothRuns};

use lingua::RunAnswer;
use lingua::sizes::{AREA_BYTES, AREAS_LENGTH, TYPE_BODIES_LENGTH};
use pair::take_pair;
use taken::given::{Asked, Registers};
use taken_checked::checked_run::checked_taken;
use taken_erased::erased_run::erased_taken;

#[derive(Clone, Copy)]
pub struct BothAnswers {
    pub checked: RunAnswer,
    pub erased: RunAnswer,
}

pub fn run_both(
    profile: &[u8],
    limits: &[u8],
    who: &[u16],
    numbers: &[i64],
    budget: u16,
    cells: &mut [i64],
    states: &mut [u16],
    open_cells: &mut [i64],
    open_states: &mut [u16],
    bodies: &mut [u8],
    erased_cells: &mut [i64],
    erased_states: &mut [u16],
    erased_open_cells: &mut [i64],
    erased_open_states: &mut [u16],
    layout: &mut [u16],
) -> BothAnswers
    ensures { BothRuns (inputs profile.now limits.now who.now numbers.now) budget (buffers cells.old states.old open_cells.old open_states.old) bodies.old (buffers erased_cells.old erased_states.old erased_open_cells.old erased_open_states.old) layout.old
        result (buffers cells.new states.new open_cells.new open_states.new) bodies.new (buffers erased_cells.new erased_states.new erased_open_cells.new erased_open_states.new) layout.new }
{
    // Each call begins with these lines: what is taken lies in areas of the call's own, and a function that was lent them would be handed as much.
    let mut areas = [0u8; AREAS_LENGTH];
    let mut others = [0u8; AREA_BYTES];
    let mut types = [0u8; TYPE_BODIES_LENGTH];
    let pair = take_pair(profile, limits, &mut areas, &mut others, &mut types);
    let asked = Asked {
        variables: who,
        numbers,
        budget,
    };
    let mut registers = Registers {
        cells,
        states,
        open_cells,
        open_states,
    };
    let mut erased_registers = Registers {
        cells: erased_cells,
        states: erased_states,
        open_cells: erased_open_cells,
        open_states: erased_open_states,
    };
    let checked = checked_taken(
        pair,
        &areas,
        &others,
        &types,
        &asked,
        &mut registers,
        bodies,
    );
    let erased = erased_taken(
        pair,
        &areas,
        &others,
        &types,
        &asked,
        &mut erased_registers,
        layout,
    );
    BothAnswers {
        checked: checked,
        erased: erased,
    }
}
