// Evaluation in the erased run (document 01: chair run), down the trees: bare numbers, the layout table, and no body.
#![tactic(auto)]

pub mod eval; // eval.rt: expressions on the operand stack
pub mod test; // test.rt: a test's value
pub mod yoke; // yoke.rt: yokes, and expressions outside them
