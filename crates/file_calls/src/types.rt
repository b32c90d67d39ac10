// The type check as a public call, on two whole files.
ghost use Rattle.std.specs.Prelude.{◌≡◌};
ghost use Rattle.lingua.specs.Calls.{type_check_call, type_check_result};

use decoder::rows::Rows;
use lingua::CheckAnswer;
use lingua::errors::Refusal;
use lingua::sizes::{AREA_BYTES, AREAS_LENGTH, LAYOUT_LENGTH, TYPE_BODIES_LENGTH};
use pair::take_pair;
use typecheck::whole::check_profile;

// document 01: the inspection. A pass fills the layout table, a type error zeroes it, a refusal leaves it as it was.
pub fn check_types(profile: &[u8], limits: &[u8], layout: &mut [u16]) -> CheckAnswer
    ensures { type_check_result result layout.new ≡ type_check_call profile.now limits.now layout.old }
{
    if layout.len() != LAYOUT_LENGTH {
        return Err(Refusal::BadBuffer);
    }
    let mut areas = [0u8; AREAS_LENGTH];
    let mut others = [0u8; AREA_BYTES];
    let mut bodies = [0u8; TYPE_BODIES_LENGTH];
    let pair = take_pair(profile, limits, &mut areas, &mut others, &mut bodies)?;
    let rows = Rows::with(&areas[..pair.profile.length], pair.profile.tables);
    Ok(check_profile(&rows, &bodies, layout))
}
