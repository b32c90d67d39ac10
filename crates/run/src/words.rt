// A variable's state words among the caller's: whether it is filled, and its current yoke. No other code knows where they stand.
ghost use Rattle.std.specs.Prelude.{◌≡◌, ◌<◌, length};
ghost use Rattle.lingua.specs.Store.{flag_place, yoke_place, yoke_at, filled_at, fill_at, set_yoke_at};

use crate::memory::Memory;
use lingua::sizes::STATE_WORDS;

pub fn is_filled(states: &[u16], n: usize) -> bool
    requires { flag_place n < length states.now }
    ensures { result ≡ filled_at states.now n }
{
    states[STATE_WORDS * n] != 0
}

pub fn yoke_of(states: &[u16], n: usize) -> usize
    requires { yoke_place n < length states.now }
    ensures { result ≡ yoke_at states.now n }
{
    states[STATE_WORDS * n + 1] as usize
}

// The same of lent memory. It is read behind `&Memory`: behind `&mut Memory` a field that is lent counts as written.
pub fn yoke_in(memory: &Memory, n: usize) -> usize
    requires { yoke_place n < length memory.now.states.now }
    ensures { result ≡ yoke_at memory.now.states.now n }
{
    yoke_of(memory.states, n)
}

pub fn set_filled(states: &mut [u16], n: usize)
    requires { flag_place n < length states.old }
    ensures { states.new ≡ fill_at states.old n }
{
    states[STATE_WORDS * n] = 1;
}

pub fn set_yoke(states: &mut [u16], n: usize, y: u16)
    requires { yoke_place n < length states.old }
    ensures { states.new ≡ set_yoke_at states.old n y }
{
    states[STATE_WORDS * n + 1] = y;
}
