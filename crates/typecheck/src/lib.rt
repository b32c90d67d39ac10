// The type check (document 01: inspection): the checks of a run on bodies alone, and the layout table.
#![tactic(auto)]

pub mod given; // given.rt: what a call gives
pub mod verdicts; // verdicts.rt: yokes, tests and instructions
pub mod whole; // whole.rt: all declared yokes, then all instructions
