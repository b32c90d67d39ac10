// The operations' half on bodies: for each operation the result's body in 96 bytes, or its type error.
#![tactic(auto)]

pub mod binary;
pub mod operation;
pub mod unary;
