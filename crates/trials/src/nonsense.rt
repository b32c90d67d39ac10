// What lent buffers hold before a call, and whether they still hold it: a refused call leaves them as they were.
use lingua::sizes::{
    CELLS_LENGTH, LAYOUT_LENGTH, OPEN_CELLS_LENGTH, OPEN_STATES_LENGTH, PRESENT_BODIES_LENGTH,
    STATES_LENGTH,
};

pub const BYTE: u8 = 165;

pub const WORD: u16 = 42405;

pub const CELL: i64 = -6510615555426900571;

pub(crate) fn is_kept<T: PartialEq>(values: &[T], nonsense: &T) -> bool {
    values.iter().all(|value| value == nonsense)
}

// What a run is lent: the variables' memory and the area for open calls, and the present bodies where it is checked, the
// layout table where it is erased.
#[derive(Drop)]
pub struct Lent {
    pub cells: [i64; CELLS_LENGTH],
    pub states: [u16; STATES_LENGTH],
    pub open_cells: [i64; OPEN_CELLS_LENGTH],
    pub open_states: [u16; OPEN_STATES_LENGTH],
    pub bodies: [u8; PRESENT_BODIES_LENGTH],
    pub layout: [u16; LAYOUT_LENGTH],
}

impl Lent {
    pub(crate) fn new() -> Lent {
        Lent {
            cells: [CELL; CELLS_LENGTH],
            states: [WORD; STATES_LENGTH],
            open_cells: [CELL; OPEN_CELLS_LENGTH],
            open_states: [WORD; OPEN_STATES_LENGTH],
            bodies: [BYTE; PRESENT_BODIES_LENGTH],
            layout: [WORD; LAYOUT_LENGTH],
        }
    }

    pub(crate) fn is_kept(&self) -> bool {
        is_kept(&self.cells, &CELL)
            && is_kept(&self.states, &WORD)
            && is_kept(&self.open_cells, &CELL)
            && is_kept(&self.open_states, &WORD)
            && is_kept(&self.bodies, &BYTE)
            && is_kept(&self.layout, &WORD)
    }
}
