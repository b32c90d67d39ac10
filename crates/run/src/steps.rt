// What a run records beside its store: the error with its place, the steps that are left, and whether it is out of budget.
ghost use Rattle.std.specs.Prelude.{◌≡◌, None, Ok, List, false, ◌≤◌, eqb};
ghost use Rattle.lingua.specs.Store.{Variable};
ghost use Rattle.lingua.specs.Answers.{answered, run_meaning};
ghost use Rattle.lingua.specs.Calls.{ending_of};
ghost use Rattle.run.specs.Statuses.{error_in, state_of, progress_of, StepOf, recorded};

use lingua::RunEnd;
use lingua::errors::{Error, ErrorAt};

#[derive(Clone, Copy)]
pub struct Status {
    pub error: Option<ErrorAt>,
    pub left: u16,
    pub out: bool,
}

// A run's start, with its whole budget.
pub fn fresh(budget: u16) -> Status
    ensures { result ≡ record { error = None; left = budget; out = false } }
{
    Status {
        error: None,
        left: budget,
        out: false,
    }
}

// One step; out where none is left.
pub fn stepped(m: Status) -> Status
    ensures { StepOf m result }
{
    if m.left == 0 {
        return Status {
            left: 0,
            out: true,
            ..m
        };
    }
    Status {
        left: m.left - 1,
        out: false,
        ..m
    }
}

// An error is recorded with its place; without one nothing changes.
pub fn settled(m: Status, answer: Result<(), Error>, place: u16) -> Status
    ensures { result ≡ recorded m answer place }
{
    match answer {
        Ok(()) => m,
        Err(error) => Status {
            error: Some(ErrorAt { error, place }),
            ..m
        },
    }
}

// Whether what is recorded is the error of a number, as a handler names it; 0 is none.
pub fn has_error(m: Status, n: usize) -> bool
    ensures { result ≡ eqb (error_in m.error) n }
{
    match m.error {
        Some(at) => at.error.number() as usize == n,
        None => n == 0,
    }
}

// A handled error is cleared, and its place with it.
pub fn cleared(m: Status) -> Status
    ensures { result ≡ record { error = None; left = m.left; out = m.out } }
{
    Status { error: None, ..m }
}

// How a run ended, and the steps that it took of its budget.
pub fn ended(m: Status, budget: u16) -> RunEnd
    requires { m.left ≤ budget }
    ensures { (vs : List Variable) (os : List (List Variable)) → run_meaning (Ok result) ≡ answered (ending_of budget (progress_of m.out (state_of m vs) os)) }
{
    let steps = budget - m.left;
    if m.out {
        return RunEnd::Out {
            recorded: m.error,
            steps: steps,
        };
    }
    match m.error {
        Some(at) => RunEnd::Failed {
            at: at,
            steps: steps,
        },
        None => RunEnd::Finished { steps: steps },
    }
}
