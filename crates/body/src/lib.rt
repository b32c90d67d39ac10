// A body in 96 bytes, by value: made, compared, measured, taken apart, and whether two are coherent.
#![tactic(auto)]

pub mod coherence;
pub mod find;
pub mod flat;
pub mod make;
pub mod parts;
pub mod typed;
pub mod walk;
