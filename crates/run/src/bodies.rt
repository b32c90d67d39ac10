// The present bodies at a run's start (document 02: at first the declared ones), 96 bytes for each variable.
ghost use Rattle.std.specs.Prelude.{◌≡◌, ◌/◌, length, replicate};
ghost use Rattle.lingua.specs.Numbers.{variable_bodies_length};
ghost use Rattle.profile.specs.Variables.{VariablesKnown};
ghost use Rattle.run.specs.Kept.{BodiesKept};

use body::flat;
use decoder::rows::Rows;
use decoder::tables::Table;
use profile::declarations::declared_body;

// The body of each variable, the profile's or a procedure's, from those of the type rows.
pub fn keep_bodies(rows: &Rows, t: Table, bodies: &[u8], variables: &mut [u8])
    requires variables_known { VariablesKnown rows.now t bodies.now }
    requires variables_value { variables.old ≡ replicate variable_bodies_length 0 }
    ensures { BodiesKept rows.now t variables.new (t.count / 2) }
{
    let count = t.count / 2;
    for d in 0..count {
        let body = declared_body(rows, t, d, bodies);
        flat::keep(variables, d, body);
    }
}
