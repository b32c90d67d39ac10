// The answer of an operation on bodies, and what the operations share.
ghost use Rattle.std.specs.Prelude.{◌≡◌, ◌||◌, [], ◌∷◌, Ok, ltb};
ghost use Rattle.lingua.specs.Numbers.{body_cells, body_nodes, body_depth, record_attributes};
ghost use Rattle.lingua.specs.Outcome.{ok};
ghost use Rattle.lingua.specs.Encode.{bytes};
ghost use Rattle.body.specs.Typed.{Types, simple_of};

use crate::make::simple;
use lingua::sizes::{BODY_BYTES, BODY_CELLS, BODY_DEPTH, BODY_NODES, RECORD_ATTRIBUTES};

// The result's body with its cells, and the attribute's cell offset of 17 to 19 and 26, or of 5 to 8 whether hundredths are reckoned with.
#[derive(Clone, Copy)]
pub struct Typed {
    pub body: [u8; BODY_BYTES],
    pub cells: usize,
    pub offset: usize,
}

// A simple body by its tag.
pub fn scalar(tag: u8) -> Typed
    requires { bytes (simple_of tag) ≡ tag ∷ [] }
    ensures { Types (Ok result) (ok (simple_of tag)) 0 }
{
    Typed {
        body: simple(tag),
        cells: 1,
        offset: 0,
    }
}

pub fn too_large(cells: usize, nodes: usize, depth: usize, width: u8) -> bool
    ensures { result ≡ (ltb body_cells cells || ltb body_nodes nodes || ltb body_depth depth || ltb record_attributes width) }
{
    BODY_CELLS < cells || BODY_NODES < nodes || BODY_DEPTH < depth || RECORD_ATTRIBUTES < width
}
