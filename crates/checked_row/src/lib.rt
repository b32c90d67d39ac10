// What the evaluation of one row does in the checked run (document 01: desk run), on operands that are evaluated or on leaves: with bodies and
// every check.
#![tactic(auto)]

pub mod answer; // answer.rt: what evaluation gives
pub mod sight; // sight.rt: what an expression sees
pub mod leaves; // leaves.rt: constants, variables and the current value
pub mod quick; // quick.rt: an operation on two leaves at once
pub mod operate; // operate.rt: an operation on evaluated operands
pub mod tally; // tally.rt: the results of an all-list yoke
