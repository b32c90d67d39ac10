// Stores of the checked run (document 01: desk run): what a variable takes once every check has passed.
#![tactic(auto)]

mod admit; // admit.rt: the checks of a new value
pub mod assign; // assign.rt: assignment
pub mod change; // change.rt: yoke change
pub mod copy; // copy.rt: a variable assigned to one of other memory
mod holds; // holds.rt: whether a value satisfies a new yoke
mod keep; // keep.rt: a store in the caller's memory
pub mod reading; // reading.rt: numbers from outside
