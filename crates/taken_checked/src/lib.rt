// The checked run of a pair of files that was taken. What is promised holds of all files that gave the pair.
#![tactic(auto)]

pub mod checked_run; // checked_run.rt: the checked run
