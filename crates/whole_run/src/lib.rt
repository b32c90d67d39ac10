// A whole run, in either way: the readings, and then the program.
#![tactic(auto)]

mod inputs; // inputs.rt: the readings, before the program's first step
pub mod whole; // whole.rt: a whole run on begun memory
