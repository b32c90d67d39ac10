// What a run of a taken pair is given: the rows of both files, what is asked of it, and the memory that it is lent.
ghost use Rattle.std.specs.Prelude.{◌≡◌};
ghost use Rattle.lingua.specs.Inputs.{Inputs, Buffers};
ghost use Rattle.taken.specs.Given.{buffers_in, buffers_seen, LimitsIn, WithLimits};
ghost use Rattle.taken.specs.Taken.{RunAdmitted, RunTaken};

use decoder::rows::Rows;
use lingua::sizes::MOST_LIMITS;
use pair::file::Taken;

// Both files' rows, whose each limit is, and the bodies of the profile's type rows.
#[derive(Drop)]
pub struct Runnable<'a> {
    pub rows: Rows<'a>,
    pub limits: Rows<'a>,
    pub owners: [u8; MOST_LIMITS],
    pub bodies: &'a [u8],
}

// The same without the limits' rows, which no rule of a run reads: how many bytes they are, and where their tables stand.
#[derive(Drop)]
pub struct Admitted<'a> {
    pub rows: Rows<'a>,
    pub limits: Taken,
    pub owners: [u8; MOST_LIMITS],
    pub bodies: &'a [u8],
}

impl<'a> Admitted<'a> {
    // With the limits' rows, which lie in front of the second area.
    pub fn with_limits(self, others: &'a [u8]) -> Runnable<'a>
        requires { LimitsIn self others.now }
        ensures is { WithLimits self.entry others.now result }
        ensures taken { (i : Inputs) (b : Buffers) → RunAdmitted self.entry i b others.now → RunTaken result i b }
    {
        let limits = Rows::with(&others[..self.limits.length], self.limits.tables);
        let owners = self.owners;
        Runnable {
            rows: self.rows,
            limits,
            owners,
            bodies: self.bodies,
        }
    }
}

// A number for each variable that is read, and how many steps the run may take.
#[derive(Clone, Copy)]
pub struct Asked<'a> {
    pub variables: &'a [u16],
    pub numbers: &'a [i64],
    pub budget: u16,
}

// The cells and state words of the variables, and those of the calls that are open.
#[derive(Drop)]
pub struct Registers<'a> {
    pub cells: &'a mut [i64],
    pub states: &'a mut [u16],
    pub open_cells: &'a mut [i64],
    pub open_states: &'a mut [u16],
}

// The same to be read alone. Whoever has the slices can make one, also who may not write them.
#[derive(Clone, Copy)]
pub struct SeenRegisters<'a> {
    pub cells: &'a [i64],
    pub states: &'a [u16],
    pub open_cells: &'a [i64],
    pub open_states: &'a [u16],
}

impl<'a> Registers<'a> {
    pub fn seen(&self) -> SeenRegisters<'_>
        ensures { buffers_seen result ≡ buffers_in self.now }
    {
        SeenRegisters {
            cells: self.cells,
            states: self.states,
            open_cells: self.open_cells,
            open_states: self.open_states,
        }
    }
}
