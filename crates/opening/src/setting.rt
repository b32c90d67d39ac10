// What the walk of instructions reads, and a call as its row tells it.
use frames::context::Context;

// Beside the context the bodies of the type rows, which the erased run does without.
#[derive(Clone, Copy)]
pub struct Setting<'a> {
    pub context: Context<'a>,
    pub types: &'a [u8],
}

// A call as its row tells it: the procedure, and the fields of what is given by value and by reference.
#[derive(Clone, Copy)]
pub struct CallRow {
    pub row: usize,
    pub procedure: usize,
    pub values: usize,
    pub references: usize,
}
