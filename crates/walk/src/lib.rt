// One walk of instructions for both runs, which differ in what the trait `Way` has alone.
#![tactic(auto)]

pub mod exec; // exec.rt: instructions, by their rows
