// The one search for a variable by its name.
ghost use Rattle.std.specs.Prelude.{◌≡◌, length};
ghost use Rattle.lingua.specs.Numbers.{name_bytes};
ghost use Rattle.lingua.specs.Lookup.{look_up};
ghost use Rattle.profile.specs.Find.{found_meaning};

use decoder::fields::bytes_at;
use decoder::rows::Rows;
use row_rules::names::same_bytes;

// The declaration that has a name, if there is one, and how many declarations the search looked at.
#[derive(Clone, Copy)]
pub struct Search {
    pub index: Option<usize>,
    pub looked: usize,
}

// The search ends at the first declaration that has the name. What it hands out as looked at are the turns that its loop made.
pub fn find(rows: &Rows, name: &[u8]) -> Search
    requires { length name.now ≡ name_bytes }
    ensures { found_meaning result ≡ look_up rows.now name.now }
{
    let bytes = rows.bytes();
    let t = rows.declarations();
    let start = t.start;
    let count = t.count / 2;
    for d in 0..count {
        if same_bytes(bytes_at(bytes, start + 2 * d), name) {
            return Search {
                index: Some(d),
                looked: d + 1,
            };
        }
    }
    Search {
        index: None,
        looked: count,
    }
}
