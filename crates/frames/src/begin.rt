// A call's variables at its start: none is filled, and each has its declared yoke; in the checked run its declared body too.
ghost use Rattle.std.specs.Prelude.{◌≡◌, replicate};
ghost use Rattle.lingua.specs.Numbers.{states_length};
ghost use Rattle.safety.specs.Accepted.{AcceptedRows};
ghost use Rattle.profile.specs.Variables.{HasScope};
ghost use Rattle.frames.specs.Meaning.{BeginsBy, Fresh};

use crate::way::Way;
use decoder::rows::Rows;
use decoder::tables::Table;
use run::start::keep_yokes;

pub fn begin<W: Way>(rows: &Rows, t: Table, types: &[u8], states: &mut [u16], bodies: &mut [u8])
    requires accepted_rows { AcceptedRows rows.now × HasScope rows.now t }
    requires states_value { states.old ≡ replicate states_length 0 }
    requires begins_by { BeginsBy W.way rows.now types.now bodies.old }
    ensures { Fresh W.way rows.now t states.new bodies.new }
{
    keep_yokes(rows, t, states);
    W::begin_bodies(rows, t, types, bodies);
}
