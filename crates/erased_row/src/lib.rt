// What the evaluation of one row does in the erased run (document 01: chair run), on operands that are evaluated or are leaves: bare numbers,
// the layout table, and no body.
#![tactic(auto)]

pub mod answer; // answer.rt: Booleans on the stack
pub mod layout; // layout.rt: a row's two numbers
pub mod leaves; // leaves.rt: constants, variables and the current value
pub mod operate; // operate.rt: an operation on evaluated operands
pub mod quick; // quick.rt: a leaf of one cell, at once
pub mod tally; // tally.rt: the results of an all-list yoke
