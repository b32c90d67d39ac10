// What is done to the variables of the profile or of an open call, in either way to run: leaves of the walk, copies between a call's variables
// and its caller's, a call's variables at its start, and the area in which they stay where the run is out of budget.
#![tactic(auto)]

pub mod area; // area.rt: an open call's variables in the area
pub mod begin; // begin.rt: a call's variables at its start
pub mod checked_way; // checked_way.rt: the checked run
pub mod context; // context.rt: what a run reads
pub mod copies; // copies.rt: a call's copies in and out
pub mod erased_way; // erased_way.rt: the erased run
pub mod way; // way.rt: what differs between the two ways to run
