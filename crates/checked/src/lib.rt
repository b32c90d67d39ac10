// Evaluation in the checked run (document 01: desk run), down the trees: with bodies and every check.
#![tactic(auto)]

pub mod eval; // eval.rt: expressions on the operand stack
pub mod yoke; // yoke.rt: yokes, and expressions outside them
