// The erased run of a pair of files that was taken. What is promised holds of all files that gave the pair.
#![tactic(auto)]

pub mod erased_run; // erased_run.rt: the erased run
