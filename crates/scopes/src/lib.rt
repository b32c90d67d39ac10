// Whose variables each row names, found in one pass over the instructions and one over the expressions.
#![tactic(auto)]

pub mod pass; // pass.rt: the two passes
