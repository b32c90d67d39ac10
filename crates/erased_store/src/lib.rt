// Stores of the erased run (document 01: chair run): what a variable takes once its yoke and its limit are satisfied.
#![tactic(auto)]

pub mod assign; // assign.rt: assignment
pub mod change; // change.rt: yoke change
pub mod copy; // copy.rt: a variable of one memory to one of another
mod holds; // holds.rt: whether a value satisfies a yoke
pub mod reading; // reading.rt: numbers from outside
mod store; // store.rt: a value's yoke, its limit, and the store
