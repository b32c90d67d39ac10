// The whole report. Both files are taken once, for the run and for the names. It tells of the profile's own variables, not of open calls.
ghost use Rattle.std.specs.Prelude.{◌≡◌, ◌≤◌, ◌++◌};
ghost use Rattle.lingua.specs.Report.{report_text};
ghost use Rattle.report.specs.Written.{most_text};

use crate::answers::put_answer;
use crate::variables::put_variables;
use lingua::sizes::{
    AREA_BYTES, AREAS_LENGTH, CELLS_LENGTH, OPEN_CELLS_LENGTH, OPEN_STATES_LENGTH,
    PRESENT_BODIES_LENGTH, REPORT_BUDGET, STATES_LENGTH, TYPE_BODIES_LENGTH,
    VARIABLE_BODIES_LENGTH,
};
use pair::take_pair;
use taken::given::{Asked, Registers};
use taken_checked::checked_run::checked_taken;
use text::page::Page;

// The report of two files, on a page that has room for any report.
pub(crate) fn report_text(profile: &[u8], limits: &[u8], page: &mut Page<'_>)
    requires { most_text ≤ page.old.left }
    ensures { page.new.text ≡ page.old.text ++ report_text profile.now limits.now }
{
    let mut areas = [0u8; AREAS_LENGTH];
    let mut others = [0u8; AREA_BYTES];
    let mut types = [0u8; TYPE_BODIES_LENGTH];
    let pair = take_pair(profile, limits, &mut areas, &mut others, &mut types);
    let variables = [0u16; 0];
    let numbers = [0i64; 0];
    let asked = Asked {
        variables: &variables,
        numbers: &numbers,
        budget: REPORT_BUDGET,
    };
    let mut cells = [0i64; CELLS_LENGTH];
    let mut states = [0u16; STATES_LENGTH];
    let mut open_cells = [0i64; OPEN_CELLS_LENGTH];
    let mut open_states = [0u16; OPEN_STATES_LENGTH];
    let mut bodies = [0u8; PRESENT_BODIES_LENGTH];
    let mut registers = Registers {
        cells: &mut cells,
        states: &mut states,
        open_cells: &mut open_cells,
        open_states: &mut open_states,
    };
    let answer = checked_taken(
        pair,
        &areas,
        &others,
        &types,
        &asked,
        &mut registers,
        &mut bodies,
    );
    put_answer(answer, page);
    put_variables(
        pair,
        &areas,
        &cells,
        &states,
        &bodies[..VARIABLE_BODIES_LENGTH],
        page,
    );
}
