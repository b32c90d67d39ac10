// What the runs of a pair of files that was taken share: what a run is given, its refusal, the present bodies that are lent, and the run of accepted rows. What is promised holds of all files that gave the pair.
#![tactic(auto)]

pub mod given; // given.rt: what a run is given
pub mod present; // present.rt: the present bodies that are lent
pub mod refusal; // refusal.rt: what every run asks before it starts
pub mod ways; // ways.rt: the run of accepted rows, in either way
