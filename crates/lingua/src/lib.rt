// Lingua profiles: the public data types of the answers, and the numbers of document 01 for the code.
// What everything means is defined in specs/.
#![tactic(auto)]

pub mod errors; // errors.rt: error and refusal numbers
pub mod operations; // operations.rt: the operations of expression rows
pub mod sizes; // sizes.rt: sizes, counts and places
pub mod words; // words.rt: integers in bytes

use errors::{ErrorAt, Refusal};

// Which of the two kinds of file the reader or the writer is told.
#[derive(Clone, Copy)]
pub enum FileKind {
    Profile,
    Limits,
}

// How a run ended, with its steps. Out of budget may leave an error recorded.
#[derive(Clone, Copy, Debug, PartialEq, Eq)]
pub enum RunEnd {
    Finished {
        steps: u16,
    },
    Failed {
        at: ErrorAt,
        steps: u16,
    },
    Out {
        recorded: Option<ErrorAt>,
        steps: u16,
    },
}

// What the reader found; the rows are in the caller's buffer.
#[derive(Clone, Copy, Debug, PartialEq, Eq)]
pub struct RowsRead {
    pub model: u16,
    pub count: u16,
}

// What the search for a variable by its name found, and how many declarations it looked at.
#[derive(Clone, Copy, Debug, PartialEq, Eq)]
pub struct Search {
    pub index: Option<u16>,
    pub looked: u16,
}

// Each public call is refused or answers.
pub type RunAnswer = Result<RunEnd, Refusal>;
// The type check (document 01: inspection) finds a profile in order, or its fault.
pub type CheckAnswer = Result<Result<(), ErrorAt>, Refusal>;

pub type ReadAnswer = Result<RowsRead, Refusal>;
// The file is in the caller's buffer.
pub type WriteAnswer = Result<(), Refusal>;

pub type FindAnswer = Result<Search, Refusal>;
