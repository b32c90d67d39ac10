// What both runs share: what is recorded beside the store, the memory at a run's start, and what is done to it without a body.
#![tactic(auto)]

pub mod bodies; // bodies.rt: the declared bodies, for the checked run
pub mod copies; // copies.rt: cells from one place to another
pub mod limits; // limits.rt: whether a number lies within a variable's limit
pub mod memory; // memory.rt: the memory that a run is lent
pub mod part; // part.rt: a variable's part of the cells takes a value
pub mod start; // start.rt: the memory at a run's start
pub mod steps; // steps.rt: error, place, steps left, and whether the run is out of budget
pub mod words; // words.rt: where a variable's flag and yoke lie in the state words
