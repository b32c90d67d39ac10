// The memory that a run is lent, to write or to read.
ghost use Rattle.std.specs.Prelude.{◌≡◌};
ghost use Rattle.run.specs.Lending.{lent_in, seen_in};

// The variables of the profile or of a call, or the area for the calls that may still be opened: present bodies, which the erased run does
// without, cells and state words.
#[derive(Drop)]
pub struct Memory<'a> {
    pub bodies: &'a mut [u8],
    pub cells: &'a mut [i64],
    pub states: &'a mut [u16],
}

// The same to be read alone. Whoever has the slices can make one, also who may not write them.
#[derive(Clone, Copy)]
pub struct Seen<'a> {
    pub bodies: &'a [u8],
    pub cells: &'a [i64],
    pub states: &'a [u16],
}

impl<'a> Memory<'a> {
    pub fn seen(&self) -> Seen<'_>
        ensures { seen_in result ≡ lent_in self.now }
    {
        Seen {
            bodies: self.bodies,
            cells: self.cells,
            states: self.states,
        }
    }
}
