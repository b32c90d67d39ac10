// The search for a variable by its name as a public call: a reading is told its variable by the index that this answers.
ghost use Rattle.std.specs.Prelude.{◌≡◌};
ghost use Rattle.lingua.specs.Answers.{find_meaning};
ghost use Rattle.lingua.specs.Calls.{find_call};

use decoder::rows::Rows;
use lingua::sizes::{AREAS_LENGTH, NAME_BYTES, TYPE_BODIES_LENGTH};
use lingua::{FileKind, FindAnswer, Search};
use pair::file::take;
use profile::find::find;

// Among the profile's own declarations; a procedure's are not searched. Nothing is lent, so a refusal leaves nothing.
pub fn find_variable(profile: &[u8], name: [u8; NAME_BYTES]) -> FindAnswer
    ensures { find_meaning result ≡ find_call profile.now name }
{
    let mut areas = [0u8; AREAS_LENGTH];
    let mut bodies = [0u8; TYPE_BODIES_LENGTH];
    let taken = take(FileKind::Profile, profile, &mut areas, &mut bodies)?;
    let rows = Rows::with(&areas[..taken.length], taken.tables);
    let found = find(&rows, &name);
    Ok(Search {
        index: found.index.map(|index| index as u16),
        looked: found.looked as u16,
    })
}
